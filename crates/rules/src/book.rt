ghost use Rattle.std.specs.Prelude.{◌≡◌, ℕ, true, false, List, length};
ghost use Rattle.clause.specs.declared.syntax.Clause.{Clause as TheClause};
ghost use Rattle.rules.specs.Books.{Consult, Sound, Tidy, outcome_of};

use clause::refusal::Refusal;
use clause::syntax::{Clause, LitSet};

// A book's internal answer, plain numbers: is the conclusion initial, its now masks, its next masks (plus, minus), and a
// bit for each cited line, the first lowest, that is 1 where the line is used at every moment.
pub type Masks = (bool, u64, u64, u64, u64, u8);

// The answer that concludes an initial line, which says nothing of a next moment; each cited line is used at its moment.
pub fn initially(set: LitSet) -> Masks
    ensures { result ≡ (true, set.plus, set.minus, 0, 0, 0) }
{
    let LitSet { plus, minus } = set;
    (true, plus, minus, 0, 0, 0)
}

// The answer that concludes a global line, with the marks of the cited lines.
pub fn globally(now: LitSet, next: LitSet, everywhere: u8) -> Masks
    ensures { result ≡ (false, now.plus, now.minus, next.plus, next.minus, everywhere) }
{
    (
        false, now.plus, now.minus, next.plus, next.minus, everywhere,
    )
}

// Derives a line from cited lines and evidence. Its meaning is two fixed functions, and the book answers just as they say.
pub trait RuleBook {
    type Evidence: Copy;

    // The greatest number of lines that the book cites: 8 at most.
    const MAX_CITED: usize;

    ghost most: { ℕ };

    // With the evidence given: what is refused by the count of cited lines, and what their clauses come to.
    ghost meaning: { Self → Self.Evidence → Consult };

    fn most_cited() -> usize
        ensures { result ≡ most };

    fn early(&self, evidence: Self::Evidence, count: usize) -> Option<Refusal>
        ensures { result ≡ (meaning self.now evidence).early count };

    fn consult(&self, cited: &[Clause], evidence: Self::Evidence) -> Result<Masks, Refusal>
        ensures answer { (meaning self.now evidence).late cited.now ≡ outcome_of (length cited.now) result }
        ensures tidy { Tidy (length cited.now) result };

    ghost greatest: { (b : Self) (e : Self.Evidence) → (meaning b e).most ≡ most };

    // Where the lines marked everywhere are kept, and those marked here are unbroken at a moment, the conclusion is unbroken then.
    ghost sound: { (b : Self) (e : Self.Evidence) (cs : List TheClause) → Sound cs ((meaning b e).late cs) };
}
