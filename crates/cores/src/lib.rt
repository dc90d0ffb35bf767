// The core of a line: the given lines that it reaches.
#![tactic(auto)]

ghost use Rattle.std.specs.Prelude.{◌≡◌, length};
ghost use Rattle.cores.specs.Cored.{FitsRow, Cored};

use crate::marks::write_marked;
use crate::sweep::reached;
use lines::line::Line;

mod marks;
mod sweep;

// Writes the core of line n into a row of 200 numbers, zeros after it, and answers its count.
// No call of the library fails but for a listed cause: where the numbers do not fit, it writes nothing and answers 0.
pub fn core_of(lines: &[Line], n: u16, given: u16, row: &mut [u16]) -> u16
    ensures core { FitsRow lines.now n given row.old → Cored lines.now n given result row.new }
    ensures none { (FitsRow lines.now n given row.old → ⊥) → (result ≡ 0) × (row.new ≡ row.old) }
{
    if lines.len() > 1000 || usize::from(n) > lines.len() || given > 200 || row.len() != 200 {
        return 0;
    }
    let marks = reached(lines, n);
    write_marked(&marks, given, row)
}
