ghost use Rattle.std.specs.Prelude.{◌≡◌, ℕ, ◌≤◌, length};
ghost use Rattle.clause.specs.Tests.{Tells};
ghost use Rattle.protocol.specs.State.{clause_at};
ghost use Rattle.protocol.specs.Causes.{SomeIn, SomeOver, NotGlobal, Fits};
ghost use Rattle.lines.specs.View.{lines_of};
ghost use Rattle.lines.specs.Named.{Misfit, UnfitPlace};

use crate::named::Named;
use crate::places::line_at;
use clause::syntax::{Clause, LitSet};

fn not_global(clause: Clause) -> bool
    ensures { Tells result (NotGlobal clause) }
{
    !matches!(clause, Clause::Global(..))
}

// Does the clause cover the guard: nothing next, and its literals among the guard's?
fn fits(clause: Clause, guard: LitSet) -> bool
    ensures { Tells result (Fits clause guard) }
{
    clause.next_set().is_none() && clause.now_set().within(guard)
}

impl Named<'_> {
    // Is some line of another kind than global?
    pub fn some_not_global(&self) -> bool
        ensures { Tells result (SomeIn (λ n. NotGlobal (clause_at (lines_of self.now.lines.now) n)) self.now.numbers.now) }
    {
        self.numbers
            .iter()
            .any(|n| not_global(line_at(self.lines, *n).clause))
    }

    // The place, from 0, of the lowest guard that its cover does not fit.
    fn misfit(&self, guards: &[LitSet]) -> Option<usize>
        ensures { Misfit (lines_of self.now.lines.now) self.now.numbers.now guards.now result }
    {
        self.numbers
            .iter()
            .zip(guards)
            .position(|(n, guard)| !fits(line_at(self.lines, *n).clause, *guard))
    }

    // The place, from 1, of the lowest guard that its cover does not fit.
    pub fn unfit(&self, guards: &[LitSet]) -> Option<u16>
        ensures { length self.now.numbers.now ≡ length guards.now → length self.now.numbers.now ≤ 8 → UnfitPlace (lines_of self.now.lines.now) self.now.numbers.now guards.now result }
    {
        u16::try_from(self.misfit(guards)? + 1).ok()
    }
}

// Does some guard hold a letter above 59?
pub fn some_over(guards: &[LitSet]) -> bool
    ensures { Tells result (SomeOver guards.now) }
{
    guards.iter().any(|g| g.over(59))
}
