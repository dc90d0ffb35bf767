ghost use Rattle.std.specs.Prelude.{◌≡◌, ℕ, ◌<◌, ◌≤◌, length, slice_index};
ghost use Rattle.clause.specs.Bit.{In};
ghost use Rattle.clause.specs.Sets.{Narrow, UntrueIn};
ghost use Rattle.clause.specs.Tests.{Tells};
ghost use Rattle.runs.specs.Source.{Source};
ghost use Rattle.runs.specs.Breaks.{FirstBreak, FirstIn, successor};
ghost use Rattle.runs.specs.Moments.{Read, asks, BreaksAt, Judged, worlds_of};

use crate::moments::Moments;
use clause::syntax::{Clause, LitSet, Literal};

impl Moments {
    // The letters of a moment.
    fn world(&self, i: u16) -> u64
        requires { i < self.now.end }
        ensures { result ≡ slice_index (worlds_of self.now) i }
    {
        self.worlds.at[usize::from(i)]
    }

    // The first moment from `from` on and below `to` at which no literal of the set is true.
    fn first_untrue(&self, n: LitSet, from: u16, to: u16) -> Option<u16>
        requires { to ≤ self.now.end }
        ensures { FirstIn (λ i. UntrueIn (slice_index (worlds_of self.now) i) n) from to result }
    {
        (from..to).find(|i| n.untrue_in(self.world(*i)))
    }

    // The moment that follows i, folded into the loop.
    fn next(&self, i: u16) -> u16
        requires { i < self.now.end }
        ensures exact { result ≡ successor self.now.lead self.now.end i }
        ensures early { result < self.now.end }
    {
        if i + 1 == self.end { self.lead } else { i + 1 }
    }

    // Is no literal of n true at i, nor any of x at the next moment?
    fn breaks_at(&self, n: LitSet, x: LitSet, i: u16) -> bool
        requires { i < self.now.end }
        ensures { Tells result (BreaksAt (worlds_of self.now) self.now.lead n x i) }
    {
        n.untrue_in(self.world(i)) && x.untrue_in(self.world(self.next(i)))
    }

    // The first moment at which no literal of n is true, nor any of x at the next.
    fn first_global(&self, n: LitSet, x: LitSet) -> Option<u16>
        ensures { FirstIn (BreaksAt (worlds_of self.now) self.now.lead n x) 0 (length (worlds_of self.now)) result }
    {
        (0..self.end).find(|i| self.breaks_at(n, x, *i))
    }

    fn first_eventual(&self, n: LitSet, l: Literal) -> Option<u16>
        ensures { Judged (worlds_of self.now) self.now.lead (Clause.Eventuality n l) result }
    {
        let from = self.horizon(l)?;
        self.first_untrue(n, from, self.end)
    }

    fn first_never(&self, n: LitSet, l: Literal) -> Option<u16>
        ensures { Judged (worlds_of self.now) self.now.lead (Clause.Never n l) result }
    {
        let to = self.horizon(l).map_or(self.end, |h| h.saturating_sub(1));
        self.first_untrue(n, 0, to)
    }

    fn first_initial(&self, n: LitSet) -> Option<u16>
        ensures { Judged (worlds_of self.now) self.now.lead (Clause.Initial n) result }
    {
        n.untrue_in(self.world(0)).then_some(0)
    }

    // What the worlds tell of the clause.
    fn judge(&self, clause: Clause) -> Option<u16>
        ensures { Judged (worlds_of self.now) self.now.lead clause result }
    {
        match clause {
            Clause::Initial(n) => self.first_initial(n),
            Clause::Global(n, x) => self.first_global(n, x),
            Clause::Eventuality(n, l) => self.first_eventual(n, l),
            Clause::Assumption(x) => self.first_global(LitSet::NONE, x),
            Clause::Never(n, l) => self.first_never(n, l),
        }
    }

    // The first moment at which the run breaks the clause.
    pub fn first_break(&self, clause: Clause) -> Option<u16>
        ensures told { Judged (worlds_of self.now) self.now.lead clause result }
        ensures first { (x : Source) (asked : ℕ) → Read x asked self.now → Narrow clause → ((k : ℕ) → In k (asks clause) → In k asked) → FirstBreak x.run clause result }
    {
        self.judge(clause)
    }
}
