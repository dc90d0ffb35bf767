ghost use Rattle.std.specs.Prelude.{◌≡◌, ℕ, ◌+◌, ◌^◌, ◌<◌, ◌≤◌, ◌==◌, not, nat_lt, Some, None};
ghost use Rattle.clause.specs.Bit.{bit, In};
ghost use Rattle.clause.specs.Tests.{Tells};
ghost use Rattle.clause.specs.Meaning.{none, just, ◌∪◌, Within, waiting};
ghost use Rattle.clause.specs.Sets.{Holds, Over, UntrueIn, ◌∖◌, letters_of, reaches, waits_set, waits_not_set, now_of, next_of, literal_of, Narrow};

use crate::syntax::{Clause, LitSet, Literal};

// The mask of one letter; past 63 there is none.
pub fn mask(letter: u8) -> u64
    ensures low { letter < 64 → result ≡ 2 ^ letter }
    ensures high { 64 ≤ letter → result ≡ 0 }
{
    if letter < 64 { 1u64 << letter } else { 0 }
}

// Is the letter k in the mask?
pub fn bit_at(mask: u64, k: u8) -> bool
    ensures exact { result ≡ (bit mask k == 1) }
    ensures tells { Tells result (In k mask) }
{
    k < 64 && (mask >> k) % 2 == 1
}

// Has the mask a letter above n?
fn above(mask: u64, n: u8) -> bool
    ensures tells { Tells result ((k : ℕ) × (n < k) × In k mask) }
    ensures masks { n < 63 → result ≡ not (nat_lt mask (2 ^ (n + 1))) }
{
    n < 63 && mask >> (n + 1) != 0
}

fn part_of(a: u64, b: u64) -> bool
    ensures { Tells result ((k : ℕ) → In k a → In k b) }
{
    a & b == a
}

fn disjoint(a: u64, b: u64) -> bool
    ensures { Tells result ((k : ℕ) → In k a → In k b → ⊥) }
{
    a & b == 0
}

impl Literal {
    pub fn is_plain(self) -> bool
        ensures { Tells result (19 < self.letter → ⊥) }
    {
        self.letter <= 19
    }

    // The letter that waits for a plain literal; of another there is none.
    fn waiting(self) -> Option<u8>
        ensures plain { self.letter ≤ 19 → result ≡ Some (waiting self) }
        ensures other { 19 < self.letter → result ≡ None }
    {
        let first = if self.positive { 20 } else { 40 };
        self.is_plain().then(|| first + self.letter)
    }

    // That the literal is waited for, as a set; empty where the literal is not plain.
    pub fn waits(self) -> LitSet
        ensures plain { self.letter ≤ 19 → result ≡ waits_set self }
        ensures other { 19 < self.letter → result ≡ none }
    {
        LitSet {
            plus: self.waiting().map_or(0, mask),
            minus: 0,
        }
    }

    // That the literal is not waited for, as a set; empty where the literal is not plain.
    pub fn waits_not(self) -> LitSet
        ensures plain { self.letter ≤ 19 → result ≡ waits_not_set self }
        ensures other { 19 < self.letter → result ≡ none }
    {
        LitSet {
            plus: 0,
            minus: self.waiting().map_or(0, mask),
        }
    }
}

impl LitSet {
    pub const NONE: LitSet = LitSet { plus: 0, minus: 0 };

    // The set of one literal; empty where its letter is above 63.
    pub fn of(l: Literal) -> LitSet
        ensures low { l.letter < 64 → result ≡ just l }
        ensures high { 64 ≤ l.letter → result ≡ none }
    {
        let m = mask(l.letter);
        if l.positive {
            LitSet { plus: m, minus: 0 }
        } else {
            LitSet { plus: 0, minus: m }
        }
    }

    pub fn has(self, l: Literal) -> bool
        ensures { Tells result (Holds self l) }
    {
        if l.positive {
            bit_at(self.plus, l.letter)
        } else {
            bit_at(self.minus, l.letter)
        }
    }

    pub fn is_none(self) -> bool
        ensures { Tells result (self ≡ none) }
    {
        self.plus == 0 && self.minus == 0
    }

    pub fn union(self, other: LitSet) -> LitSet
        ensures { result ≡ self ∪ other }
    {
        LitSet {
            plus: self.plus | other.plus,
            minus: self.minus | other.minus,
        }
    }

    // The set without the literals of another.
    pub fn without(self, other: LitSet) -> LitSet
        ensures { result ≡ self ∖ other }
    {
        LitSet {
            plus: self.plus ^ (self.plus & other.plus),
            minus: self.minus ^ (self.minus & other.minus),
        }
    }

    pub fn within(self, other: LitSet) -> bool
        ensures { Tells result (Within self other) }
    {
        part_of(self.plus, other.plus) && part_of(self.minus, other.minus)
    }

    // Is no literal of the set true in a world, where the letters of the mask are true and no others?
    pub fn untrue_in(self, world: u64) -> bool
        ensures { Tells result (UntrueIn world self) }
    {
        disjoint(self.plus, world) && part_of(self.minus, world)
    }

    // The letters of the set, whatever their sign.
    pub fn letters(self) -> u64
        ensures { result ≡ letters_of self }
    {
        self.plus | self.minus
    }

    // Does the set hold a letter above n?
    pub fn over(self, n: u8) -> bool
        ensures tells { Tells result (Over n self) }
        ensures masks { n < 63 → result ≡ reaches (n + 1) self }
    {
        above(self.plus, n) || above(self.minus, n)
    }
}

impl Clause {
    pub fn now_set(self) -> LitSet
        ensures { result ≡ now_of self }
    {
        match self {
            Clause::Initial(n) => n,
            Clause::Global(n, _) => n,
            Clause::Eventuality(n, _) => n,
            Clause::Assumption(_) => LitSet::NONE,
            Clause::Never(n, _) => n,
        }
    }

    pub fn next_set(self) -> LitSet
        ensures { result ≡ next_of self }
    {
        match self {
            Clause::Global(_, x) => x,
            Clause::Assumption(x) => x,
            _ => LitSet::NONE,
        }
    }

    // Is no letter above 59, and the literal plain?
    pub fn is_narrow(self) -> bool
        ensures { Tells result (Narrow self) }
    {
        !self.now_set().over(59) && !self.next_set().over(59) && self.literal().is_plain()
    }

    // The literal of an eventuality or a never clause; +0 of another.
    pub fn literal(self) -> Literal
        ensures { result ≡ literal_of self }
    {
        match self {
            Clause::Eventuality(_, l) => l,
            Clause::Never(_, l) => l,
            _ => Literal {
                letter: 0,
                positive: true,
            },
        }
    }
}
