ghost use Rattle.std.specs.Prelude.{◌≡◌};
ghost use Rattle.runs.specs.Table.{means};
ghost use Rattle.std.proofs.Common.{rules, arith};

use crate::source::{RunSource, tested};
use crate::table::WorldTable;
use clause::refusal::Fault;

impl RunSource for WorldTable {
    ghost meaning = { means };

    ghost turns = { first_of (Prim.search rules, Prim.grind (arith, Self.row.coded.inj)) };

    ghost small = { first_of (Prim.search rules, Prim.grind (arith, Self.row.coded.inj)) };

    ghost agrees = { λ s i k h. (means s).agrees i k h };

    fn lead_in(&self) -> u16 {
        self.lead
    }

    fn loop_length(&self) -> u16 {
        self.turn
    }

    fn letter(&self, k: u8, i: u16) -> Result<bool, Fault> {
        tested(k, i, self.end())?;
        Ok(self.worlds.tells(i, k))
    }
}
