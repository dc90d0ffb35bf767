ghost use Rattle.std.specs.Prelude.{◌≡◌, ◌+◌, ◌≤◌};

use crate::world::Worlds;

// At most 64 worlds: a lead-in, and then a loop.
#[derive(Clone, Copy)]
pub struct WorldTable {
    pub(crate) worlds: Worlds,
    pub(crate) lead: u16,
    pub(crate) turn: u16,
    ghost turns: { 1 ≤ turn },
    ghost small: { lead + turn ≤ 64 },
}

impl WorldTable {
    // One past the last moment of the loop.
    pub(crate) fn end(&self) -> u16
        ensures { result ≡ self.now.lead + self.now.turn }
    {
        self.lead + self.turn
    }
}
