ghost use Rattle.std.specs.Prelude.{◌+◌, ◌≤◌, take};
ghost use Rattle.protocol.specs.Causes.{SomeOver};

use clause::syntax::{LitSet, Literal};

// The first `last` places of the table are lines, and the first `given` of these were given.
#[derive(Clone, Copy)]
pub struct Body {
    pub(crate) last: u16,
    pub(crate) given: u16,
    ghost fits: { last ≤ 1000 },
    ghost few: { given ≤ 200 },
    ghost own: { given ≤ last },
}

// A case that takes clauses in: the first `given` places of its table are its lines.
#[derive(Drop)]
pub struct Intake {
    pub(crate) given: u16,
    ghost few: { given ≤ 200 },
}

// A sealed case.
#[derive(Drop)]
pub struct Sealed {
    pub(crate) body: Body,
}

// A case with an open loop, whose lines begin at `first`. It cannot be let go: close or abandon ends it.
// It holds plain numbers beside the lent table and no list of its own, so of its 8 places for guards the first `count` hold one.
pub struct OpenLoop {
    pub(crate) body: Body,
    pub(crate) first: u16,
    pub(crate) literal: Literal,
    pub(crate) guards: [LitSet; 8],
    pub(crate) count: u8,
    ghost own: { body.given + 1 ≤ first },
    ghost placed: { first ≤ body.last + 1 },
    ghost guarded: { count ≤ 8 },
    ghost plain: { literal.letter ≤ 19 },
    ghost narrow: { SomeOver (take count guards) → ⊥ },
}
