ghost use Rattle.std.specs.Prelude.{◌≡◌, ℕ, ◌+◌, ◌≤◌, map, length};
ghost use Rattle.clause.specs.declared.syntax.LitSet.{LitSet as TheLitSet};
ghost use Rattle.clause.specs.Sets.{Over};
ghost use Rattle.protocol.specs.State as model;
ghost use Rattle.protocol.specs.Causes.{SomeOver};
ghost use Rattle.protocol.specs.Answers.{assumed, nevers};
ghost use Rattle.lines.specs.declared.line.Line.{Line as TheLine};
ghost use Rattle.lines.specs.View.{line_of, Tidy, Written, Blanked};

use crate::line::Line;
use clause::syntax::{Clause, LitSet, Literal};

// Writes a line for each guard after the last line, where there is room.
fn write<F: Fn(LitSet) -> Line>(table: &mut [Line], last: u16, guards: &[LitSet], line: F)
    requires { F.IsAlwaysCallable line }
    ensures { (f : TheLitSet → model.Line) → ((g : TheLitSet) (y : TheLine) → (Over 59 g → ⊥) → F.post line g y → (line_of y ≡ f g) × Tidy y)
        → (SomeOver guards.now → ⊥) → last + length guards.now ≤ length table.old → Written last table.old (map f guards.now) table.new }
{
    // By number: after `iter_mut().zip(guards)` a proof knows nothing of what was written.
    for (i, guard) in guards.iter().enumerate() {
        let n = usize::from(last) + i;
        if n < table.len() {
            table[n] = line(*guard);
        }
    }
}

// The assumption of a guard.
fn assumption(l: Literal, guard: LitSet) -> Line
    ensures exact { l.letter ≤ 19 → (Over 59 guard → ⊥) → line_of result ≡ assumed l guard }
    ensures tidy { Tidy result }
{
    Line::citing(Clause::Assumption(guard.union(LitSet::of(l))), &[], true)
}

// What a closed loop says of a guard.
fn never(l: Literal, covers: &[u16], guard: LitSet) -> Line
    ensures exact { l.letter ≤ 19 → length covers.now ≤ 8 → (Over 59 guard → ⊥) → line_of result ≡ nevers l covers.now guard }
    ensures tidy { Tidy result }
{
    Line::citing(Clause::Never(guard, l), covers, false)
}

// Writes an assumption for each guard after the last line, where there is room.
pub fn assume(table: &mut [Line], last: u16, l: Literal, guards: &[LitSet])
    ensures { l.letter ≤ 19 → (SomeOver guards.now → ⊥) → last + length guards.now ≤ length table.old → Written last table.old (map (assumed l) guards.now) table.new }
{
    write(table, last, guards, |guard| assumption(l, guard));
}

// Writes a never line for each guard after the last line, where there is room.
pub fn conclude(table: &mut [Line], last: u16, l: Literal, covers: &[u16], guards: &[LitSet])
    ensures { l.letter ≤ 19 → length covers.now ≤ 8 → (SomeOver guards.now → ⊥) → last + length guards.now ≤ length table.old → Written last table.old (map (nevers l covers.now) guards.now) table.new }
{
    write(table, last, guards, |guard| never(l, covers, guard));
}

// Blanks the places from `from` up to `end`.
pub fn blank_between(table: &mut [Line], from: u16, end: u16)
    ensures { from ≤ end → end ≤ length table.old → Blanked from end table.old table.new }
{
    let end = table.len().min(usize::from(end));
    if usize::from(from) <= end {
        table[usize::from(from)..end].fill(Line::blank());
    }
}
