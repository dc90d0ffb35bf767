// A letter or its negation. A plain letter is at most 19.
#[derive(Clone, Copy, PartialEq, Eq)]
pub struct Literal {
    pub letter: u8,
    pub positive: bool,
}

// A set of literals: a mask of the letters that it holds with `+`, and one of those with `-`.
#[derive(Clone, Copy, PartialEq, Eq)]
pub struct LitSet {
    pub plus: u64,
    pub minus: u64,
}

// A clause over time; `specs/Meaning.antt` says when a run breaks it.
#[derive(Clone, Copy, PartialEq, Eq)]
pub enum Clause {
    // some literal is true at moment 0
    Initial(LitSet),
    // always: some literal of the first set is true now, or some of the second at the next moment
    Global(LitSet, LitSet),
    // always: some literal of the set is true now, or the literal now or later
    Eventuality(LitSet, Literal),
    // always: some literal of the set is true at the next moment
    Assumption(LitSet),
    // always: some literal of the set is true now, or the literal is untrue at every later moment
    Never(LitSet, Literal),
}
