ghost use Rattle.std.specs.Prelude.{◌≡◌, ℕ, List, []};
ghost use Rattle.case.specs.View.{view_loop, stage_of};
ghost use Rattle.text.specs.Calls.{view, LedTo};
ghost use Rattle.text.specs.Reading.{Held, left, Comes, verdict as the_verdict};

use crate::reading::Reading;
use crate::stage::{Refuted, Stage, Verdict};
use case::stage::{OpenLoop, Sealed};
use clause::refusal::{Fault, Refusal};
use lines::line::Line;

// An open loop lies beside its table: what led to both is asked of each function that ends a case.

// Ends a loop whose text was refused.
fn give_up(o: OpenLoop, table: &mut [Line; 1000])
    requires { LedTo (view_loop o table.old) table.old }
    ensures { Held (left (stage_of o) (view_loop o table.old)) table.new }
{
    match o.abandon(table) {
        Ok(_done) => (),
        Err(_) => unreachable(),
    }
}

fn verdict(found: Option<Refuted>, last: u16) -> Verdict
    ensures { result ≡ the_verdict found last }
{
    match found {
        Some(refuted) => Verdict::Contradiction(refuted.line, refuted.count),
        None => Verdict::Open(last),
    }
}

impl Reading {
    // Ends the case of a refused text.
    pub(crate) fn leave(self, table: &mut [Line; 1000])
        requires { LedTo (view self.stage table.old) table.old }
        ensures { Held (left (view self.stage table.old).stage (view self.stage table.old)) table.new }
    {
        let Reading { stage, found: _ } = self;
        match stage {
            Stage::Taking(_) | Stage::Working(_) => (),
            Stage::Looping(o) => give_up(o, table),
        }
    }

    // The end of a text before line n: one in intake is sealed, one in an open loop is refused.
    pub(crate) fn finish(self, n: u16, table: &mut [Line; 1000]) -> Result<(Sealed, Verdict), Fault>
        requires { LedTo (view self.stage table.old) table.old }
        ensures { (row : List ℕ) → Comes n [] self.found (view self.stage table.old) row result table.new row }
    {
        let Reading { stage, found } = self;
        match stage {
            Stage::Taking(i) => {
                let (s, last) = i.seal();
                Ok((s, verdict(found, last)))
            }
            Stage::Working(s) => {
                let last = s.last();
                Ok((s, verdict(found, last)))
            }
            Stage::Looping(o) => {
                give_up(o, table);
                Err(Fault::of(Refusal::WrongState).placed(n, 0))
            }
        }
    }
}
