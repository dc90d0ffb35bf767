ghost use Rattle.std.specs.Prelude.{◌≡◌, ℕ, ◌+◌, ◌<◌, min, take};
ghost use Rattle.records.specs.Guards.{with_guard};

use clause::syntax::{Clause, LitSet, Literal};
use forms::lists::{Letters, Numbers};

// The guards of an `O` line: the first eight, in the ninth place the union of all others, zeros after the last; nine
// stand for nine or more. `over` is the field of the first guard with a letter above 59.
// Nine places and a count, since the library allocates nothing, and a `Vec` would.
#[derive(Clone, Copy)]
pub struct Guards {
    pub at: [LitSet; 9],
    pub count: u8,
    pub over: Option<u16>,
}

impl Guards {
    pub const NONE: Guards = Guards {
        at: [LitSet::NONE; 9],
        count: 0,
        over: None,
    };

    // Adds a guard, which stands in the field k. It is changed in place: a line may have thousands.
    pub(crate) fn add(&mut self, k: u16, s: LitSet)
        ensures { self.new ≡ with_guard self.old k s }
    {
        let place = usize::from(self.count.min(8));
        let before = self.at[place];
        self.at[place] = before.union(s);
        self.count = self.count.min(8) + 1;
        if self.over.is_none() && s.over(59) {
            self.over = Some(k);
        }
    }

    // One guard more, which stands in the field k.
    pub fn with(self, k: u16, s: LitSet) -> Guards
        ensures { result ≡ with_guard self k s }
    {
        let mut guards = self;
        guards.add(k, s);
        guards
    }

    // The guards, without the places after them.
    pub fn as_slice(&self) -> &[LitSet]
        ensures { result.now ≡ take (min self.now.count 9) self.now.at }
    {
        &self.at[..usize::from(self.count.min(9))]
    }
}

// What a line of a case text asks for. A letter above 63, which no call takes, is kept as 63.
#[derive(Clone, Copy)]
pub enum Record {
    Give(Clause),
    Seal,
    WaitLine(u16),
    WaitLiteral(Literal),
    Resolve { first: u16, second: u16, letter: u8 },
    Trial(LitSet, LitSet, Numbers),
    OpenLoop(Literal, Guards),
    CloseLoop(Numbers),
    Abandon,
    DrawFor { never: u16, eventuality: u16 },
    Draw(u16),
    Refute(u16),
}

// What a line of a run text says.
#[derive(Clone, Copy)]
pub enum RunRecord {
    Worlds {
        lead: u16,
        turn: u16,
    },
    World(Letters),
    Tasks,
    Task {
        letter: u8,
        offset: u16,
        period: u16,
        length: u16,
    },
}
