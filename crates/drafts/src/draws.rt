ghost use Rattle.std.specs.Prelude.{◌≡◌};
ghost use Rattle.clause.specs.Sets.{Narrow};
ghost use Rattle.protocol.specs.Calls.{draw, draw_alone};
ghost use Rattle.protocol.specs.Answers.{drawn_clause as the_drawn_clause, drawn_alone as the_drawn_alone};
ghost use Rattle.drafts.specs.Drafts.{SealedDraft};

use crate::kinds::{check_drawn, check_never};
use clause::refusal::Fault;
use clause::syntax::{Clause, LitSet};
use lines::line::Line;
use lines::named::check_named;
use lines::places::line_at;

// What a never clause and an eventuality with its literal come to.
fn drawn_clause(never: Clause, eventuality: Clause) -> Clause
    ensures { Narrow eventuality → result ≡ the_drawn_clause never eventuality }
{
    Clause::Global(
        eventuality
            .now_set()
            .union(LitSet::of(eventuality.literal()).union(never.now_set())),
        LitSet::NONE,
    )
}

// What a never clause comes to alone, with the letter that waits for its literal.
fn drawn_alone_clause(never: Clause) -> Clause
    ensures { Narrow never → result ≡ the_drawn_alone never }
{
    let l = never.literal();
    Clause::Global(l.waits_not(), LitSet::of(l).union(never.now_set()))
}

// The line that a draw on never line n and eventuality line m adds.
pub fn drawn(lines: &[Line], n: u16, m: u16) -> Result<Line, Fault>
    ensures { SealedDraft lines.now (draw n m) result }
{
    check_named(lines, None, &[n, m])?;
    let never = line_at(lines, n);
    let eventuality = line_at(lines, m);
    check_drawn(never.clause, eventuality.clause)?;
    Ok(Line::citing(
        drawn_clause(never.clause, eventuality.clause),
        &[n, m],
        false,
    ))
}

// The line that a draw on never line n alone adds.
pub fn drawn_alone(lines: &[Line], n: u16) -> Result<Line, Fault>
    ensures { SealedDraft lines.now (draw_alone n) result }
{
    check_named(lines, None, &[n])?;
    let never = line_at(lines, n);
    check_never(never.clause)?;
    Ok(Line::citing(drawn_alone_clause(never.clause), &[n], false))
}
