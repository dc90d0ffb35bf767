ghost use Rattle.std.specs.Prelude.{◌≡◌, ℕ, ◌≤◌, Bool};
ghost use Rattle.lines.specs.View.{lines_of};
ghost use Rattle.text.specs.Fields.{over_field, letter_field as the_letter_field, line_field as the_line_field, outside as the_outside, dormant as the_dormant, unfit as the_unfit, field_of};
ghost use Rattle.text.specs.Reading.{found as the_found};

use crate::stage::Refuted;
use clause::refusal::Refusal;
use clause::syntax::Clause;
use lines::line::Line;
use lines::places::line_at;
use records::record::Record;

// The first field of a given clause with a letter above 19.
fn first_over(clause: Clause) -> u16
    ensures { result ≡ over_field clause }
{
    match clause {
        Clause::Global(s, _) | Clause::Eventuality(s, _) => if s.over(19) { 2 } else { 3 },
        _ => 2,
    }
}

// The field of a letter that a call refuses.
fn letter_field(what: Record) -> u16
    ensures { result ≡ the_letter_field what }
{
    match what {
        Record::Give(c) => first_over(c),
        Record::WaitLiteral(_) => 2,
        Record::Resolve { .. } => 4,
        Record::Trial(now, _, _) => if now.over(59) { 2 } else { 3 },
        Record::OpenLoop(l, guards) => if l.letter > 19 {
            2
        } else {
            guards.over.unwrap_or(0)
        },
        _ => 0,
    }
}

// The field of a line that a call refuses: of two lines, the first where that one is refused.
fn line_field<F: Fn(u16) -> bool>(what: Record, refused: F) -> u16
    requires { F.IsAlwaysCallable refused }
    ensures { (p : ℕ → Bool) → ((n : ℕ) (yes : Bool) → F.post refused n yes → yes ≡ p n) → result ≡ the_line_field p what }
{
    match what {
        Record::Resolve { first, .. } => if refused(first) { 2 } else { 3 },
        Record::DrawFor { never, .. } => if refused(never) { 2 } else { 3 },
        Record::Trial(_, _, _) => 4,
        Record::WaitLine(_) | Record::CloseLoop(_) | Record::Draw(_) | Record::Refute(_) => 2,
        _ => 0,
    }
}

fn outside(lines: &[Line], n: u16) -> bool
    ensures { result ≡ the_outside (lines_of lines.now) n }
{
    n == 0 || lines.len() < usize::from(n)
}

// Is the line resting, and before the first of the open loop?
fn dormant(lines: &[Line], first: Option<u16>, n: u16) -> bool
    ensures { result ≡ the_dormant (lines_of lines.now) first n }
{
    line_at(lines, n).resting && first.is_none_or(|f| n < f)
}

// Is the clause of a kind that the call does not take first?
fn unfit(what: Record, clause: Clause) -> bool
    ensures { result ≡ the_unfit what clause }
{
    match what {
        Record::DrawFor { .. } => !matches!(clause, Clause::Never(_, _)),
        _ => matches!(clause, Clause::Never(_, _) | Clause::Eventuality(_, _)),
    }
}

// The first field that a call's refusal is about, the key being 1.
// A fault is told as five numbers, and 0 is the one that says nothing: it stands where the refusal is about no field.
pub(crate) fn refused_field(
    lines: &[Line],
    first: Option<u16>,
    what: Record,
    refusal: Refusal,
) -> u16
    ensures { result ≡ field_of (lines_of lines.now) first what refusal }
{
    match refusal {
        Refusal::LetterRange => letter_field(what),
        Refusal::NoSuchLine => line_field(what, |n| outside(lines, n)),
        Refusal::NotInForce => line_field(what, |n| dormant(lines, first, n)),
        Refusal::WrongKind => line_field(what, |n| unfit(what, line_at(lines, n).clause)),
        _ => 0,
    }
}

// The last refutation after an accepted record.
pub(crate) fn found_after(what: Record, before: Option<Refuted>, count: u16) -> Option<Refuted>
    ensures { result ≡ the_found what before count }
{
    match what {
        Record::Refute(line) => Some(Refuted { line, count }),
        _ => before,
    }
}
