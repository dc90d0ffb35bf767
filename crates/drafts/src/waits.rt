ghost use Rattle.std.specs.Prelude.{◌≡◌, ◌≤◌, List};
ghost use Rattle.clause.specs.Sets.{Narrow};
ghost use Rattle.protocol.specs.Calls.{wait_line, wait_literal};
ghost use Rattle.protocol.specs.Answers.{waited_clause as the_waited_clause, waits_line};
ghost use Rattle.lines.specs.declared.line.Line.{Line as TheLine};
ghost use Rattle.drafts.specs.Drafts.{SealedDraft};

use crate::kinds::check_eventuality;
use clause::refusal::{Fault, Refusal};
use clause::syntax::{Clause, LitSet, Literal};
use lines::line::Line;
use lines::named::check_named;
use lines::places::line_at;

// What an eventuality becomes with the letter that waits for its literal.
fn waited_clause(clause: Clause) -> Clause
    ensures { Narrow clause → result ≡ the_waited_clause clause }
{
    let l = clause.literal();
    Clause::Global(
        clause.now_set().union(LitSet::of(l).union(l.waits())),
        LitSet::NONE,
    )
}

// What waits for l now, waits for it next or has it next.
fn waits_clause(l: Literal) -> Clause
    ensures { l.letter ≤ 19 → result ≡ waits_line l }
{
    Clause::Global(l.waits_not(), LitSet::of(l).union(l.waits()))
}

// The line that a wait on line n adds.
pub fn waited(lines: &[Line], n: u16) -> Result<Line, Fault>
    ensures { SealedDraft lines.now (wait_line n) result }
{
    check_named(lines, None, &[n])?;
    let line = line_at(lines, n);
    check_eventuality(line.clause)?;
    Ok(Line::citing(waited_clause(line.clause), &[n], false))
}

// The line that a wait on a literal adds.
pub fn waits(l: Literal) -> Result<Line, Fault>
    ensures { (t : List TheLine) → SealedDraft t (wait_literal l) result }
{
    if l.letter > 19 {
        return Err(Fault::of(Refusal::LetterRange));
    }
    Ok(Line::citing(waits_clause(l), &[], false))
}
