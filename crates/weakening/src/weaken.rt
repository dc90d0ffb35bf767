ghost use Rattle.std.specs.Prelude.{◌≡◌};
ghost use Rattle.rules.specs.Books.{outcome_of, Tidy};
ghost use Rattle.weakening.specs.Weak.{weaker_of, weakening};
ghost use Rattle.std.proofs.Common.{rules};

use clause::refusal::Refusal;
use clause::syntax::{Clause, LitSet};
use rules::book::{initially, Masks, RuleBook};

// An initial line with the literals of the evidence too.
fn weaker(line: Clause, evidence: LitSet) -> Result<Masks, Refusal>
    ensures answer { weaker_of evidence line ≡ outcome_of 1 result }
    ensures tidy { Tidy 1 result }
{
    match line {
        Clause::Initial(s) if !evidence.over(59) => Ok(initially(s.union(evidence))),
        _ => Err(Refusal::WrongKind),
    }
}

// From one initial line it concludes the line with more literals: the evidence.
#[derive(Clone, Copy)]
pub struct Weaken;

impl RuleBook for Weaken {
    type Evidence = LitSet;

    const MAX_CITED: usize = 1;

    ghost most = { 1 };

    ghost meaning = { λ _ e. weakening e };

    ghost greatest = { Prim.search rules };

    ghost sound = { λ b e cs. (weakening e).sound cs };

    fn most_cited() -> usize {
        Self::MAX_CITED
    }

    fn early(&self, evidence: LitSet, count: usize) -> Option<Refusal> {
        if evidence.over(59) {
            Some(Refusal::LetterRange)
        } else if count != 1 {
            Some(Refusal::WrongCount)
        } else {
            None
        }
    }

    fn consult(&self, cited: &[Clause], evidence: LitSet) -> Result<Masks, Refusal> {
        match cited {
            [line] => weaker(*line, evidence),
            _ => Err(Refusal::WrongKind),
        }
    }
}
