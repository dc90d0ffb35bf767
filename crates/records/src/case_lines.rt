ghost use Rattle.std.specs.Prelude.{◌≡◌};
ghost use Rattle.forms.specs.Cuts.{split};
ghost use Rattle.records.specs.Records.{open_of, by_key, record_of};

use crate::fields::{field, misread};
use crate::guards::guards;
use crate::record::Record;
use crate::text_line::TextLine;
use clause::refusal::{Fault, Refusal};
use clause::syntax::Clause;
use forms::fields::{Fields, key};

// Two fields or more: the literal, and then the guards.
fn open_loop(line: TextLine) -> Result<Record, Fault>
    ensures { result ≡ open_of (split 9 line.entry.text.now) line.entry.ended }
{
    let mut fields = Fields::of(line.text);
    let (Some(_), Some(literal)) = (fields.next(), fields.next()) else {
        return Err(misread(Refusal::FieldCount, 0));
    };
    let literal = field(literal, 2)?;
    let (found, next) = guards(fields)?;
    line.closed(next, Record::OpenLoop(literal, found))
}

// By a rule of the project the key decides by a match, with one arm for each record.
fn read_by(key: u8, line: TextLine) -> Result<Record, Fault>
    ensures { result ≡ by_key key (split 9 line.entry.text.now) line.entry.ended }
{
    match key as char {
        'I' => line.one().map(|now| Record::Give(Clause::Initial(now))),
        'G' => line
            .two()
            .map(|(now, next)| Record::Give(Clause::Global(now, next))),
        'E' => line.two().map(|(now, literal)| Record::Give(Clause::Eventuality(now, literal))),
        'S' => line.bare().map(|_| Record::Seal),
        'W' => line.one().map(Record::WaitLine),
        'V' => line.one().map(Record::WaitLiteral),
        'R' => line.three().map(|(first, second, letter)| Record::Resolve {
            first,
            second,
            letter,
        }),
        'T' => line
            .three()
            .map(|(now, next, lines)| Record::Trial(now, next, lines)),
        'O' => open_loop(line),
        'C' => line.one().map(Record::CloseLoop),
        'A' => line.bare().map(|_| Record::Abandon),
        'N' => line.two().map(|(never, eventuality)| Record::DrawFor { never, eventuality }),
        'M' => line.one().map(Record::Draw),
        'X' => line.one().map(Record::Refute),
        _ => Err(misread(Refusal::UnknownKey, 0)),
    }
}

// The record of a line of a case text.
pub fn read_line(line: TextLine) -> Result<Record, Fault>
    ensures { result ≡ record_of line.entry.text.now line.entry.ended }
{
    let key = key(line.text).ok_or(misread(Refusal::UnknownKey, 0))?;
    read_by(key, line)
}
