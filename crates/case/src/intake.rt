ghost use Rattle.std.specs.Prelude.{◌≡◌, List};
ghost use Rattle.clause.specs.Tests.{Tells};
ghost use Rattle.protocol.specs.Calls.{give as the_give, seal as the_seal};
ghost use Rattle.protocol.specs.Causes.{OverGiven};
ghost use Rattle.protocol.specs.Promise.{Promise};
ghost use Rattle.lines.specs.declared.line.Line.{Line as TheLine};
ghost use Rattle.case.specs.View.{view_intake};
ghost use Rattle.case.specs.Calling.{Called, Begun, SealedAs, answer_of};

use crate::body::put;
use crate::stage::{Body, Intake, Sealed};
use clause::refusal::{Fault, Refusal};
use clause::syntax::Clause;
use lines::line::Line;
use lines::writes::blank_between;

fn over_given(clause: Clause) -> bool
    ensures { Tells result (OverGiven clause) }
{
    match clause {
        Clause::Initial(n) => n.over(19),
        Clause::Global(n, x) => n.over(19) || x.over(19),
        Clause::Eventuality(n, l) => n.over(19) || l.letter > 19,
        Clause::Assumption(_) | Clause::Never(..) => true,
    }
}

impl Intake {
    // Makes a case of a table of 1,000 places, and blanks it.
    pub fn new(table: &mut [Line]) -> Result<Intake, Fault>
        ensures begun { Begun result table.old table.new }
        ensures promise { Promise }
    {
        if table.len() != 1000 {
            return Err(Fault::of(Refusal::WrongSize));
        }
        blank_between(table, 0, 1000);
        Ok(Intake { given: 0 })
    }

    // Adds an initial, global or eventuality clause over plain letters, and answers its number.
    pub fn give(&mut self, table: &mut [Line], clause: Clause) -> Result<u16, Fault>
        ensures { Called view_intake (the_give clause) (answer_of result) self.old table.old self.new table.new }
    {
        let Some(table) = table.as_mut_array::<1000>() else {
            return Err(Fault::of(Refusal::WrongSize));
        };
        if over_given(clause) {
            return Err(Fault::of(Refusal::LetterRange));
        }
        self.given = put(table, Line::citing(clause, &[], false), self.given, 200)?;
        Ok(self.given)
    }

    // The number of the last line.
    pub fn last(&self) -> u16
        ensures { result ≡ self.now.given }
    {
        let Intake { given } = self;
        *given
    }

    // Ends giving, and answers the last number.
    pub fn seal(self) -> (Sealed, u16)
        ensures { (t : List TheLine) → SealedAs self t result.0 result.1 }
    {
        let Intake { given } = self;
        let body = Body { last: given, given };
        (Sealed { body }, given)
    }
}
