ghost use Rattle.std.specs.Prelude.{◌≡◌, ℕ, ◌+◌, ◌^◌, ◌<◌, ◌≤◌, Bool, if◌then◌else◌, ◌==◌, nat_eq};
ghost use Rattle.clause.specs.Bit.{bit};
ghost use Rattle.runs.specs.Table.{letter_in, Changed, MadeTable, LetterSet};

use crate::source::tested;
use crate::table::WorldTable;
use crate::world::{World, Worlds};
use clause::refusal::{Fault, Refusal};
use clause::sets::bit_at;

impl World {
    // Says whether the letter k is true.
    fn change(&mut self, k: u8, yes: bool)
        requires { k < 32 }
        ensures { (m : ℕ) → (bit self.new.letters m == 1) ≡ (if nat_eq m k then yes else (bit self.old.letters m == 1)) }
    {
        let m = 1u32 << k;
        self.letters = if yes {
            self.letters | m
        } else {
            self.letters ^ (self.letters & m)
        };
    }
}

impl Worlds {
    // Changes one letter of one world in place.
    fn change(&mut self, i: u16, k: u8, yes: bool)
        requires moment { i < 64 }
        requires letter { k < 32 }
        ensures { Changed i k yes self.old.at self.new.at }
    {
        self.at[usize::from(i)].change(k, yes);
    }

    pub(crate) fn tells(&self, i: u16, k: u8) -> bool
        requires { i < 64 }
        ensures { result ≡ letter_in self.now.at i k }
    {
        bit_at(u64::from(self.at[usize::from(i)].letters), k)
    }
}

impl WorldTable {
    // A table of lead + turn worlds in which every letter is no.
    pub fn new(lead: u16, turn: u16) -> Result<WorldTable, Fault>
        ensures { MadeTable lead turn result }
    {
        if turn < 1 || turn > 64 || lead > 64 - turn {
            return Err(Fault::of(Refusal::OutOfRange));
        }
        let worlds = Worlds {
            at: [World { letters: 0 }; 64],
        };
        Ok(WorldTable { worlds, lead, turn })
    }

    // Says whether the letter k is true in the world at moment i.
    pub fn change(&mut self, i: u16, k: u8, yes: bool) -> Result<(), Fault>
        ensures { LetterSet i k yes self.old self.new result }
    {
        tested(k, i, self.end())?;
        self.worlds.change(i, k, yes);
        Ok(())
    }
}
