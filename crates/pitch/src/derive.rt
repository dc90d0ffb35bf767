ghost use Rattle.std.specs.Prelude.{◌≡◌, length};

use crate::frame::give;
use crate::task::{no, yes};
use case::stage::{OpenLoop, Sealed};
use clause::refusal::Fault;
use clause::syntax::{Clause, LitSet};
use lines::line::Line;
use rules::resolution::Resolution;

fn give_figures(table: &mut [Line]) -> Result<Sealed, Fault> {
    let clauses = [
        Clause::Initial(LitSet::of(yes(1))),
        Clause::Global(LitSet::of(no(1)), LitSet::of(yes(1))),
        Clause::Global(LitSet::of(no(1)), LitSet::of(no(0))),
        Clause::Eventuality(LitSet::NONE, yes(0)),
        Clause::Global(LitSet::of(no(2)), LitSet::NONE),
    ];
    give(table, &clauses)
}

// Ends a loop without a result, and says why.
fn give_up(open: OpenLoop, table: &mut [Line], why: Fault) -> Fault
    requires { length table.old ≡ 1000 }
{
    match open.abandon(table) {
        Ok(_) => why,
        Err(_) => unreachable(),
    }
}

// The lines derived within the loop.
fn loop_lines(open: &mut OpenLoop, table: &mut [Line]) -> Result<(), Fault> {
    open.infer(table, &Resolution, &[2, 6], 1)?;
    open.infer(table, &Resolution, &[7, 3], 0)?;
    Ok(())
}

// The steps within the loop, and its end.
fn loop_steps(mut open: OpenLoop, table: &mut [Line]) -> Result<Sealed, Fault>
    requires { length table.old ≡ 1000 }
{
    if let Err(f) = loop_lines(&mut open, table) {
        return Err(give_up(open, table, f));
    }
    match open.close(table, &[8]) {
        Ok((sealed, _)) => Ok(sealed),
        Err((open, f)) => Err(give_up(open, table, f)),
    }
}

// From each moment at which 1 holds, 0 is never true again: a loop for +0 with the guard -1.
fn never_again(sealed: Sealed, table: &mut [Line]) -> Result<Sealed, Fault>
    requires { length table.old ≡ 1000 }
{
    match sealed.open(table, yes(0), &[LitSet::of(no(1))]) {
        Ok((open, _)) => loop_steps(open, table),
        Err((_, f)) => Err(f),
    }
}

// A line without a literal, and how many given lines its core has.
#[derive(Clone, Copy)]
pub(crate) struct Contradiction {
    pub(crate) line: u16,
    pub(crate) count: u16,
}

// Derives the empty initial line, refutes it, and writes its core into the row.
pub(crate) fn contradict(
    table: &mut [Line; 1000],
    row: &mut [u16; 200],
) -> Result<Contradiction, Fault> {
    let sealed = give_figures(table)?;
    let mut sealed = never_again(sealed, table)?;
    sealed.draw(table, 9, 4)?;
    sealed.infer(table, &Resolution, &[10, 3], 0)?;
    sealed.infer(table, &Resolution, &[2, 11], 1)?;
    let line = sealed.infer(table, &Resolution, &[1, 12], 1)?;
    let count = sealed.refute(table, line, row)?;
    Ok(Contradiction { line, count })
}
