ghost use Rattle.std.specs.Prelude.{◌≡◌};
ghost use Rattle.forms.specs.Cuts.{split};
ghost use Rattle.records.specs.RunRecords.{run_by_key, run_record_of};

use crate::fields::misread;
use crate::record::RunRecord;
use crate::text_line::TextLine;
use clause::refusal::{Fault, Refusal};
use forms::fields::key;

// By a rule of the project the key decides by a match, with one arm for each record.
fn read_by(key: u8, line: TextLine) -> Result<RunRecord, Fault>
    ensures { result ≡ run_by_key key (split 9 line.entry.text.now) line.entry.ended }
{
    match key as char {
        'D' => line
            .two()
            .map(|(lead, turn)| RunRecord::Worlds { lead, turn }),
        'U' => line.one().map(RunRecord::World),
        'H' => line.bare().map(|_| RunRecord::Tasks),
        'K' => line.four().map(|(letter, offset, period, length)| RunRecord::Task {
            letter,
            offset,
            period,
            length,
        }),
        _ => Err(misread(Refusal::UnknownKey, 0)),
    }
}

// The record of a line of a run text.
pub fn read_run_line(line: TextLine) -> Result<RunRecord, Fault>
    ensures { result ≡ run_record_of line.entry.text.now line.entry.ended }
{
    let key = key(line.text).ok_or(misread(Refusal::UnknownKey, 0))?;
    read_by(key, line)
}
