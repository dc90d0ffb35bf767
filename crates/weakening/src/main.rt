// A rule book written from outside the library, and a case that is played through with it.
#![tactic(auto)]

ghost use Rattle.weakening.specs.Ends.{Ends};

mod weaken;

use crate::weaken::Weaken;
use case::stage::Intake;
use clause::refusal::Fault;
use clause::syntax::{Clause, LitSet, Literal};
use lines::line::Line;
use std::io;

// Gives two clauses, weakens the line `cite`, and refutes the line `n`; the first refusal ends it.
fn play(
    table: &mut [Line],
    row: &mut [u16],
    a: Clause,
    b: Clause,
    cite: u16,
    more: LitSet,
    n: u16,
) -> Result<u16, Fault>
    ensures { Ends a b row.old row.new result }
{
    let mut intake = Intake::new(table)?;
    intake.give(table, a)?;
    intake.give(table, b)?;
    let (mut sealed, _) = intake.seal();
    sealed.infer(table, &Weaken, &[cite], more)?;
    sealed.refute(table, n, row)
}

fn plus(letter: u8) -> LitSet {
    LitSet::of(Literal {
        letter,
        positive: true,
    })
}

fn tell(rt: HostRuntime, name: &str, cite: u16, more: LitSet) -> io::Result<()> {
    let mut table = [Line::blank(); 1000];
    let mut row = [0; 200];
    let a = Clause::Initial(LitSet::NONE);
    let b = Clause::Global(plus(0), LitSet::NONE);
    match play(&mut table, &mut row, a, b, cite, more, 3) {
        Ok(count) => println!(rt; "{name}: contradiction, core of {count}: line {}", row[0])?,
        Err(f) => println!(rt; "{name}: refused {}", f.number())?,
    }
    Ok(())
}

fn main(rt: HostRuntime) -> io::Result<()> {
    tell(rt, "by nothing", 1, LitSet::NONE)?;
    tell(rt, "by +3", 1, plus(3))?;
    tell(rt, "by +60", 1, plus(60))?;
    tell(rt, "a global line", 2, LitSet::NONE)?;
    Ok(())
}
