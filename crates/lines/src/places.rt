ghost use Rattle.std.specs.Prelude.{◌≡◌, ℕ, ◌-◌, ◌≤◌, List, ◌++◌, length, take, replicate};
ghost use Rattle.clause.specs.Sets.{Narrow};
ghost use Rattle.protocol.specs.State.{line_at};
ghost use Rattle.lines.specs.View.{line_of, lines_of, Tidy, IsBlank};

use crate::line::Line;
use clause::syntax::{Clause, LitSet};

// The first 8 of the items, with fillers after them.
pub fn first_8<T: Copy>(items: &[T], filler: T) -> [T; 8]
    ensures few { length items.now ≤ 8 → result ≡ items.now ++ replicate (8 - length items.now) filler }
    ensures many { 8 ≤ length items.now → result ≡ take 8 items.now }
{
    let front = &items[..items.len().min(8)];
    let mut out = [filler; 8];
    out[..front.len()].copy_from_slice(front);
    out
}

impl Line {
    // A place without a line.
    pub fn blank() -> Line
        ensures { IsBlank result }
    {
        Line {
            clause: Clause::Initial(LitSet::NONE),
            cites: [0; 8],
            cited: 0,
            resting: false,
        }
    }

    // A line with the lines that it cites; a blank place where the clause is not narrow, or more than 8 are cited.
    pub fn citing(clause: Clause, cites: &[u16], resting: bool) -> Line
        ensures exact { Narrow clause → length cites.now ≤ 8 → line_of result ≡ record { clause = clause; cites = cites.now; resting = resting } }
        ensures tidy { Tidy result }
    {
        if cites.len() > 8 || !clause.is_narrow() {
            return Line::blank();
        }
        Line {
            clause,
            cites: first_8(cites, 0),
            cited: cites.len() as u8,
            resting,
        }
    }

    // The lines that it cites.
    pub fn cited_lines(&self) -> &[u16]
        ensures { result.now ≡ (line_of self.now).cites }
    {
        &self.cites[..usize::from(self.cited)]
    }
}

// Line n, from 1; a blank place past the last.
pub fn line_at(lines: &[Line], n: u16) -> Line
    ensures { line_of result ≡ line_at (lines_of lines.now) n }
{
    lines
        .get(usize::from(n.saturating_sub(1)))
        .map_or_else(Line::blank, |line| *line)
}
