ghost use Rattle.std.specs.Prelude.{◌≤◌};
ghost use Rattle.clause.specs.Sets.{Narrow};

use clause::syntax::Clause;

// A place of the table. The first `cited` numbers of `cites` are the lines that it cites: a place is copied within its lent table, so it can own no list.
#[derive(Clone, Copy)]
pub struct Line {
    pub clause: Clause,
    pub cites: [u16; 8],
    pub cited: u8,
    pub resting: bool,
    ghost few: { cited ≤ 8 },
    ghost narrow: { Narrow clause },
}
