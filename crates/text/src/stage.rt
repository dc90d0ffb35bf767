ghost use Rattle.std.specs.Prelude.{◌≡◌, List, length};
ghost use Rattle.protocol.specs.State.{last as the_last};
ghost use Rattle.lines.specs.declared.line.Line.{Line as TheLine};
ghost use Rattle.lines.specs.View.{lines_of};
ghost use Rattle.text.specs.Calls.{view};
ghost use Rattle.text.specs.Reading.{first_of};

use case::stage::{Intake, OpenLoop, Sealed};
use lines::line::Line;

// Where a case text has come to.
pub enum Stage {
    Taking(Intake),
    Working(Sealed),
    Looping(OpenLoop),
}

impl Stage {
    // The number of the last line.
    pub(crate) fn last(&self) -> u16
        ensures { (t : List TheLine) → length t ≡ 1000 → result ≡ the_last (view self.now t) }
    {
        match self {
            Stage::Taking(i) => i.last(),
            Stage::Working(s) => s.last(),
            Stage::Looping(o) => o.last(),
        }
    }

    // The number of the open loop's first line, if a loop is open.
    pub(crate) fn first(&self) -> Option<u16>
        ensures { (t : List TheLine) → result ≡ first_of (view self.now t).stage }
    {
        match self {
            Stage::Looping(o) => Some(o.first()),
            _ => None,
        }
    }

    // The lines in the table.
    pub(crate) fn lines<'t>(&self, table: &'t [Line; 1000]) -> &'t [Line]
        ensures { lines_of result.now ≡ (view self.now table.now).lines }
    {
        &table[..usize::from(self.last())]
    }
}

// A refuted line, and the size of its core.
#[derive(Clone, Copy)]
pub struct Refuted {
    pub line: u16,
    pub count: u16,
}

// What an accepted case text comes to: the last line number, or the refuted line and the size of its core.
#[derive(Clone, Copy)]
pub enum Verdict {
    Open(u16),
    Contradiction(u16, u16),
}
