ghost use Rattle.std.specs.Prelude.{◌≡◌, ℕ, List, length};
ghost use Rattle.rules.specs.Books.{concluded, conclusion_of};
ghost use Rattle.protocol.specs.Calls.{infer as the_infer};
ghost use Rattle.drafts.specs.Drafts.{StageDraft};

use clause::refusal::{Fault, Refusal};
use clause::syntax::{Clause, LitSet};
use lines::line::Line;
use lines::named::Named;
use rules::book::{Masks, RuleBook};

// The clause that a book's masks stand for. The masks are a tuple and the clause another crate's, so no `From` can stand here.
fn clause_of(masks: Masks) -> Clause
    ensures { result ≡ concluded (conclusion_of masks) }
{
    let (initial, now_plus, now_minus, next_plus, next_minus, _) = masks;
    let n = LitSet {
        plus: now_plus,
        minus: now_minus,
    };
    if initial {
        Clause::Initial(n)
    } else {
        Clause::Global(
            n,
            LitSet {
                plus: next_plus,
                minus: next_minus,
            },
        )
    }
}

// The line that an infer adds, where the open loop, if there is one, begins at `first`.
pub fn inferred<B: RuleBook>(
    lines: &[Line],
    first: Option<u16>,
    book: &B,
    cites: &[u16],
    evidence: B::Evidence,
) -> Result<Line, Fault>
    ensures { StageDraft first lines.now (the_infer (B.meaning book.now evidence) cites.now) result }
{
    if let Some(refusal) = book.early(evidence, cites.len()) {
        return Err(Fault::of(refusal));
    }
    let named = Named {
        lines,
        numbers: cites,
    };
    named.check(first)?;
    let clauses = named.clauses();
    match book.consult(&clauses[0..cites.len()], evidence) {
        Err(refusal) => Err(Fault::of(refusal)),
        Ok(masks) => {
            if named.rests_everywhere(masks.5) {
                return Err(Fault::of(Refusal::RestingEverywhere));
            }
            let resting = named.some_resting();
            Ok(Line::citing(clause_of(masks), cites, resting))
        }
    }
}
