ghost use Rattle.std.specs.Prelude.{◌≡◌, ◌≤◌, length};
ghost use Rattle.lines.specs.View.{lines_of};
ghost use Rattle.cores.specs.Marks.{Reached};

use crate::marks::mark_below;
use lines::line::Line;

// Marks the lines that line n reaches, from n down: each line cites earlier ones alone.
pub(crate) fn reached(lines: &[Line], n: u16) -> [bool; 1001]
    requires few { length lines.now ≤ 1000 }
    requires there { n ≤ length lines.now }
    ensures long { length result ≡ 1001 }
    ensures exact { Reached (lines_of lines.now) n result }
{
    let mut marks = [false; 1001];
    marks[n as usize] = true;
    for k in (1..=n).rev() {
        if marks[k as usize] {
            mark_below(&mut marks, lines[k as usize - 1].cited_lines(), k);
        }
    }
    marks
}
