ghost use Rattle.std.specs.Prelude.{◌≡◌, Ok, Err, if◌then◌else◌};
ghost use Rattle.clause.specs.Refusals.{plain};
ghost use Rattle.protocol.specs.Causes.{eventual, never, drawn, refutable};
ghost use Rattle.lines.specs.Named.{Checked};

use clause::refusal::{Fault, Refusal};
use clause::syntax::Clause;

// Passes where what is wanted holds, and else refuses.
fn wanted(holds: bool, refusal: Refusal) -> Result<(), Fault>
    ensures { result ≡ (if holds then Ok tt else Err (plain refusal)) }
{
    if holds {
        Ok(())
    } else {
        Err(Fault::of(refusal))
    }
}

// An eventuality line is wanted.
pub fn check_eventuality(clause: Clause) -> Result<(), Fault>
    ensures { Checked (eventual clause) result }
{
    wanted(
        matches!(clause, Clause::Eventuality(..)),
        Refusal::WrongKind,
    )
}

// A never line is wanted.
pub fn check_never(clause: Clause) -> Result<(), Fault>
    ensures { Checked (never clause) result }
{
    wanted(matches!(clause, Clause::Never(..)), Refusal::WrongKind)
}

// A never line and an eventuality line with its literal are wanted.
pub fn check_drawn(first: Clause, second: Clause) -> Result<(), Fault>
    ensures { Checked (drawn first second) result }
{
    check_never(first)?;
    check_eventuality(second)?;
    wanted(first.literal() == second.literal(), Refusal::LiteralsDiffer)
}

// An initial or global line without literals is wanted.
pub fn check_refutable(clause: Clause) -> Result<(), Fault>
    ensures { Checked (refutable clause) result }
{
    wanted(
        matches!(clause, Clause::Initial(_) | Clause::Global(..)),
        Refusal::WrongKind,
    )?;
    wanted(
        clause.now_set().is_none() && clause.next_set().is_none(),
        Refusal::NotEmpty,
    )
}
