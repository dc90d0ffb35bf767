ghost use Rattle.std.specs.Prelude.{◌≡◌, ℕ, ◌+◌, ◌≤◌, true, not, ◌&&◌, length, count_ones};
ghost use Rattle.std.specs.Iterator.{at_most};
ghost use Rattle.std.specs.List.{list_any};
ghost use Rattle.clause.specs.Tests.{Tells};
ghost use Rattle.rules.specs.Books.{outcome_of, Tidy};
ghost use Rattle.rules.specs.Trying.{claimed, Judged};
ghost use Rattle.rules.specs.Deciding.{now_atoms, next_atoms, is_ever, all_ever, wide_claim, untrue_at, broken_at, one_broken_at, place_broken, counter_at, Sub, NextSub, suited, late_trial, all_choices, GivesChoice, choices_left};
ghost use Rattle.rules.specs.TryingSound.{trying};
ghost use Rattle.std.proofs.Common.{rules};

use crate::book::{Masks, RuleBook, globally};
use clause::refusal::Refusal;
use clause::syntax::{Clause, LitSet};

// What a trial claims: always, some literal of the first set is true now, or some of the second at the next moment.
#[derive(Clone, Copy)]
pub struct Claim {
    pub now: LitSet,
    pub next: LitSet,
}

impl Claim {
    // Has the claim a letter above 59?
    fn is_wide(self) -> bool
        ensures { result ≡ wide_claim self }
    {
        self.now.over(59) || self.next.over(59)
    }
}

// The letters of a claim and its lines, now and next, as masks.
#[derive(Clone, Copy)]
struct Atoms {
    now: u64,
    next: u64,
}

impl Atoms {
    fn of(claim: Claim, cited: &[Clause]) -> Atoms
        ensures now { result.now ≡ now_atoms claim cited.now }
        ensures next { result.next ≡ next_atoms claim cited.now }
    {
        Atoms {
            now: cited.iter().fold(
                claim.now.letters(),
                |all, line| all | line.now_set().letters(),
            ),
            next: cited.iter().fold(
                claim.next.letters(),
                |all, line| all | line.next_set().letters(),
            ),
        }
    }

    fn count(self) -> u32
        ensures { result ≡ count_ones self.now + count_ones self.next }
    {
        self.now.count_ones() + self.next.count_ones()
    }
}

// The choice that follows x, from all the letters of a down to none: the greatest below it.
fn below(x: u64, a: u64) -> Option<u64>
    ensures { NextSub x a result }
{
    Some(x.checked_sub(1)? & a)
}

// The choices among the letters of a mask, from all of them down to none.
#[derive(Drop)]
struct Choices {
    letters: u64,
    next: Option<u64>,
}

impl Choices {
    fn among(letters: u64) -> Choices
        ensures { result ≡ all_choices letters }
    {
        Choices {
            letters,
            next: Some(letters),
        }
    }
}

impl Iterator for Choices {
    type Item = u64;

    ghost next_gives = { GivesChoice };

    ghost remaining = { λ s. at_most (choices_left s.next) };

    fn next(&mut self) -> Option<u64> {
        let choice = self.next?;
        self.next = below(choice, self.letters);
        Some(choice)
    }
}

// Does the choice make each literal of the set untrue?
fn is_untrue(choice: u64, set: LitSet) -> bool
    ensures { result ≡ untrue_at choice set }
{
    set.untrue_in(choice)
}

// A line with the choice y of its next letters: a choice x of the now letters breaks it where x makes each literal of this set untrue.
fn at_next(y: u64, line: Clause) -> LitSet
    ensures { (x : ℕ) → untrue_at x result ≡ broken_at x y line }
{
    if is_untrue(y, line.next_set()) {
        line.now_set()
    } else {
        UNBROKEN
    }
}

// A set of which each choice has a true literal.
const UNBROKEN: LitSet = LitSet { plus: 1, minus: 1 };

fn place_at_next(y: u64, cited: &[Clause], i: usize) -> LitSet
    ensures { (x : ℕ) → untrue_at x result ≡ place_broken x y cited.now i }
{
    if i < cited.len() {
        at_next(y, cited[i])
    } else {
        UNBROKEN
    }
}

// The cited lines with the choice y, and after them sets that nothing breaks. So the next letters are looked at once for each y.
fn all_at_next(y: u64, cited: &[Clause]) -> [LitSet; 4]
    requires { length cited.now ≤ 4 }
    ensures { (x : ℕ) → list_any (untrue_at x) result ≡ one_broken_at x y cited.now }
{
    [
        place_at_next(y, cited, 0),
        place_at_next(y, cited, 1),
        place_at_next(y, cited, 2),
        place_at_next(y, cited, 3),
    ]
}

// Does a choice of the letters make the claim's set untrue, and none of the lines' sets?
fn counters(claim: LitSet, lines: &[LitSet], letters: u64) -> bool
    ensures { Tells result ((x : ℕ) × Sub x letters × (untrue_at x claim && not (list_any (untrue_at x) lines.now) ≡ true)) }
{
    // By a rule of the project the choices and the lines are searched by loops, which a label leaves.
    'choices: for x in Choices::among(letters) {
        if !is_untrue(x, claim) {
            continue 'choices;
        }
        for line in lines {
            if is_untrue(x, *line) {
                continue 'choices;
            }
        }
        return true;
    }
    false
}

// Does a choice of the atoms break the claim and none of the lines?
fn has_counterexample(claim: Claim, cited: &[Clause], atoms: Atoms) -> bool
    requires { length cited.now ≤ 4 }
    ensures { Tells result ((y : ℕ) × Sub y atoms.next × (x : ℕ) × Sub x atoms.now × (counter_at x y (claimed claim) cited.now ≡ true)) }
{
    for y in Choices::among(atoms.next) {
        if is_untrue(y, claim.next) && counters(claim.now, &all_at_next(y, cited), atoms.now) {
            return true;
        }
    }
    false
}

// The greatest number of atoms of a trial.
const MOST_ATOMS: u32 = 10;

// A global line, or an assumption, which is read as one.
fn is_global(line: Clause) -> bool
    ensures { result ≡ is_ever line }
{
    matches!(line, Clause::Global(_, _) | Clause::Assumption(_))
}

fn all_global(cited: &[Clause]) -> bool
    ensures { result ≡ all_ever cited.now }
{
    cited.iter().all(|line| is_global(*line))
}

// Is the claim slim, are there few lines, and is each one global?
fn suits(claim: Claim, cited: &[Clause]) -> bool
    ensures { result ≡ suited claim cited.now }
{
    !claim.is_wide() && cited.len() <= Trial::MAX_CITED && all_global(cited)
}

fn attempt(claim: Claim, cited: &[Clause]) -> Result<Masks, Refusal>
    ensures answer { late_trial claim cited.now ≡ outcome_of (length cited.now) result }
    ensures tidy { Tidy (length cited.now) result }
{
    if !suits(claim, cited) {
        return Err(Refusal::WrongKind);
    }
    let atoms = Atoms::of(claim, cited);
    if atoms.count() > MOST_ATOMS {
        return Err(Refusal::TooManyAtoms);
    }
    if has_counterexample(claim, cited, atoms) {
        return Err(Refusal::Counterexample);
    }
    Ok(globally(claim.now, claim.next, 0))
}

// A claim is accepted where each choice of its atoms and the lines' that breaks it breaks a cited line.
#[derive(Clone, Copy)]
pub struct Trial;

impl RuleBook for Trial {
    type Evidence = Claim;

    const MAX_CITED: usize = 4;

    ghost most = { 4 };

    ghost meaning = { λ _ e. trying e };

    ghost greatest = { Prim.search rules };

    ghost sound = { λ b e cs. (trying e).sound cs };

    fn most_cited() -> usize {
        Self::MAX_CITED
    }

    fn early(&self, claim: Claim, count: usize) -> Option<Refusal> {
        if claim.is_wide() {
            Some(Refusal::LetterRange)
        } else if !(1..=Self::MAX_CITED).contains(&count) {
            Some(Refusal::WrongCount)
        } else {
            None
        }
    }

    fn consult(&self, cited: &[Clause], claim: Claim) -> Result<Masks, Refusal>
        ensures answer { late_trial claim cited.now ≡ outcome_of (length cited.now) result }
        ensures tidy { Tidy (length cited.now) result }
        ensures judged { Judged claim cited.now (outcome_of (length cited.now) result) }
    {
        attempt(claim, cited)
    }
}
