ghost use Rattle.std.specs.Prelude.{◌≡◌, ℕ, ◌<◌, ◌≤◌, ◌⊎◌, List, Option, length, take, slice_index_or};
ghost use Rattle.clause.specs.Tests.{Tells};
ghost use Rattle.clause.specs.Meaning.{none};
ghost use Rattle.rules.specs.Books.{marks_of};
ghost use Rattle.protocol.specs.State.{Stage, clauses_at as the_clauses_at, any_resting};
ghost use Rattle.protocol.specs.Causes.{SomeIn, RestEverywhere, named as named_causes};
ghost use Rattle.lines.specs.View.{line_of, lines_of};
ghost use Rattle.lines.specs.Named.{Checked, LoopFrom, Asleep, at_stage, from_on};

use crate::line::Line;
use crate::places::line_at;
use clause::refusal::{Fault, Refusal};
use clause::sets::bit_at;
use clause::syntax::{Clause, LitSet};
use std::array;

// The lines that a call names, by their numbers.
#[derive(Clone, Copy)]
pub struct Named<'t> {
    pub lines: &'t [Line],
    pub numbers: &'t [u16],
}

// Is line n one of the open loop, where it begins at `first`?
fn in_loop(first: Option<u16>, n: u16) -> bool
    ensures { result ≡ from_on first n }
{
    first.is_some_and(|f| f <= n)
}

// Tests the lines that a call names, by their numbers, as `Named` does.
pub fn check_named(lines: &[Line], first: Option<u16>, numbers: &[u16]) -> Result<(), Fault>
    ensures { (st : Stage) (g : ℕ) → LoopFrom first (length lines.now) st → Checked (named_causes (at_stage st g (lines_of lines.now)) numbers.now) result }
{
    Named { lines, numbers }.check(first)
}

impl Named<'_> {
    // Is some number not of a line?
    fn some_outside(&self) -> bool
        ensures { Tells result (SomeIn (λ n. (n ≡ 0) ⊎ (length self.now.lines.now < n)) self.now.numbers.now) }
    {
        self.numbers
            .iter()
            .any(|n| *n == 0 || *n as usize > self.lines.len())
    }

    // Is some line resting, and not of the open loop?
    fn some_asleep(&self, first: Option<u16>) -> bool
        ensures { Tells result (SomeIn (Asleep (lines_of self.now.lines.now) first) self.now.numbers.now) }
    {
        self.numbers
            .iter()
            .any(|n| line_at(self.lines, *n).resting && !in_loop(first, *n))
    }

    // Tests that each number is of a line, and then that each line is in force, where the open loop begins at `first`.
    pub fn check(&self, first: Option<u16>) -> Result<(), Fault>
        ensures { (st : Stage) (g : ℕ) → LoopFrom first (length self.now.lines.now) st → Checked (named_causes (at_stage st g (lines_of self.now.lines.now)) self.now.numbers.now) result }
    {
        if self.some_outside() {
            return Err(Fault::of(Refusal::NoSuchLine));
        }
        if self.some_asleep(first) {
            return Err(Fault::of(Refusal::NotInForce));
        }
        Ok(())
    }

    // Does some line rest?
    pub fn some_resting(&self) -> bool
        ensures { result ≡ any_resting (lines_of self.now.lines.now) self.now.numbers.now }
    {
        self.numbers.iter().any(|n| line_at(self.lines, *n).resting)
    }

    // Does some line rest that is marked everywhere? The marks are bits, the first line's lowest.
    pub fn rests_everywhere(&self, marks: u8) -> bool
        ensures { Tells result (RestEverywhere (lines_of self.now.lines.now) self.now.numbers.now (marks_of (length self.now.numbers.now) marks)) }
    {
        (0..8).zip(self.numbers).any(|(k, n)| bit_at(u64::from(marks), k)
            && line_at(self.lines, *n).resting)
    }

    // The clause of the line that place i names, from 0; an empty one past the last.
    fn clause(&self, i: usize) -> Clause
        ensures { result ≡ slice_index_or (the_clauses_at (lines_of self.now.lines.now) self.now.numbers.now) i (Clause.Initial none) }
    {
        self.numbers.get(i).map_or(
            Clause::Initial(LitSet::NONE),
            |n| line_at(self.lines, *n).clause,
        )
    }

    // The clauses of the first 8 lines.
    pub fn clauses(&self) -> [Clause; 8]
        ensures long { length result ≡ 8 }
        ensures front { length self.now.numbers.now ≤ 8 → take (length self.now.numbers.now) result ≡ the_clauses_at (lines_of self.now.lines.now) self.now.numbers.now }
    {
        array::from_fn(|i| self.clause(i))
    }
}
