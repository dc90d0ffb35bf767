ghost use Rattle.std.specs.Prelude.{◌≡◌};
ghost use Rattle.runs.specs.Tasks.{due, due_at as the_due_at};
ghost use Rattle.runs.specs.Times.{means};
ghost use Rattle.std.proofs.Common.{rules, arith};

use crate::source::{RunSource, tested};
use crate::task::Task;
use crate::timetable::Timetable;
use clause::refusal::Fault;

impl Task {
    fn due(self, i: u16) -> bool
        ensures { result ≡ due self i }
    {
        let offset = u16::from(self.offset);
        offset <= i && (i - offset) % u16::from(self.period) < u16::from(self.length)
    }
}

fn due_at(slot: Option<Task>, i: u16) -> bool
    ensures { result ≡ the_due_at slot i }
{
    slot.is_some_and(|task| task.due(i))
}

impl RunSource for Timetable {
    ghost meaning = { means };

    ghost turns = { first_of (Prim.search rules, Prim.grind (arith, Self.row.coded.inj)) };

    ghost small = { first_of (Prim.search rules, Prim.grind (arith, Self.row.coded.inj)) };

    ghost agrees = { λ s i k h. (means s).agrees i k h };

    fn lead_in(&self) -> u16 {
        self.lead
    }

    fn loop_length(&self) -> u16 {
        self.turn
    }

    fn letter(&self, k: u8, i: u16) -> Result<bool, Fault> {
        tested(k, i, self.lead + self.turn)?;
        Ok(due_at(self.tasks[usize::from(k)], i))
    }
}
