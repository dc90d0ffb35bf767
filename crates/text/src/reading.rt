ghost use Rattle.std.specs.Prelude.{◌≡◌, ℕ, ◌<◌, length, Ok, OnOk};
ghost use Rattle.text.specs.Calls.{view, LeadsOn};
ghost use Rattle.text.specs.Reading.{reached, known, Judged, LineRead};

use crate::places::{found_after, refused_field};
use crate::stage::{Refuted, Stage};
use crate::steps::step;
use crate::text_lines::NumberedLine;
use clause::refusal::Fault;
use lines::line::Line;
use records::case_lines::read_line;
use records::record::Record;

// What a case text has come to: the stage of its case, and its last refutation. The table and the row are lent apart from it.
pub struct Reading {
    pub stage: Stage,
    pub found: Option<Refuted>,
}

impl Reading {
    // The record of line n as a call.
    fn call(
        self,
        what: Record,
        n: u16,
        table: &mut [Line; 1000],
        row: &mut [u16],
    ) -> Result<Reading, (Reading, Fault)>
        ensures exact { Judged n (Ok what) self.found (view self.stage table.old) row.old (known result) (view (reached result).stage table.new) row.new }
        ensures onward { LeadsOn (view self.stage table.old) table.old (view (reached result).stage table.new) table.new }
    {
        let Reading { stage, found } = self;
        let (stage, answer) = step(stage, what, table, row);
        match answer {
            Ok(m) => {
                let found = found_after(what, found, m);
                Ok(Reading { stage, found })
            }
            Err(f) => {
                let field = refused_field(stage.lines(table), stage.first(), what, f.refusal);
                Err((Reading { stage, found }, f.placed(n, field)))
            }
        }
    }

    // A line of the text.
    pub(crate) fn take(
        self,
        numbered: NumberedLine,
        table: &mut [Line; 1000],
        row: &mut [u16],
    ) -> Result<Reading, (Reading, Fault)>
        ensures exact { LineRead numbered.entry.number numbered.entry.line.text.now numbered.entry.line.ended self.found (view self.stage table.old) row.old (known result) (view (reached result).stage table.new) row.new }
        ensures onward { LeadsOn (view self.stage table.old) table.old (view (reached result).stage table.new) table.new }
        ensures some { OnOk result (0 < length numbered.entry.line.text.now) }
    {
        match read_line(numbered.line) {
            Err(f) => Err((self, f.placed(numbered.number, f.field))),
            Ok(what) => self.call(what, numbered.number, table, row),
        }
    }
}
