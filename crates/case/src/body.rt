ghost use Rattle.std.specs.Prelude.{◌≡◌, ◌≢◌, ◌≤◌, length, take, Result};
ghost use Rattle.std.specs.Fn.{FnOnceReturnsAt};
ghost use Rattle.clause.specs.Refusals.{plain};
ghost use Rattle.clause.specs.declared.refusal.Fault.{Fault as TheFault};
ghost use Rattle.clause.specs.declared.refusal.Refusal.TheVariants.{WrongSize};
ghost use Rattle.lines.specs.declared.line.Line.{Line as TheLine};
ghost use Rattle.case.specs.Calling.{Put, AddsDraft};

use crate::stage::Body;
use clause::refusal::{Fault, Refusal};
use lines::line::Line;

// Writes a line after the first `count` places, where they are fewer than `limit`, and answers how many they are then.
pub(crate) fn put(
    table: &mut [Line; 1000],
    line: Line,
    count: u16,
    limit: u16,
) -> Result<u16, Fault>
    requires { limit ≤ 1000 }
    ensures { Put limit count table.old line result table.new }
{
    if count >= limit {
        return Err(Fault::of(Refusal::NoRoom));
    }
    table[usize::from(count)] = line;
    Ok(count + 1)
}

impl Body {
    // The lines of the table.
    pub(crate) fn lines<'t>(&self, table: &'t [Line; 1000]) -> &'t [Line]
        ensures { result.now ≡ take self.now.last table.now }
    {
        &table[..usize::from(self.last)]
    }

    // Adds the line that a call drafts from the lines of the table, where it is not refused and there is a place for it.
    pub(crate) fn adding<F: FnOnce(&[Line]) -> Result<Line, Fault>>(
        &mut self,
        table: &mut [Line],
        draft: F,
    ) -> Result<u16, Fault>
        requires { F.IsAlwaysCallable draft }
        ensures on { self.old.last ≤ self.new.last }
        ensures given { self.new.given ≡ self.old.given }
        ensures wrong { length table.old ≢ 1000 → (result ≡ Err (plain WrongSize)) × (self.new ≡ self.old) × (table.new ≡ table.old) }
        ensures right { length table.old ≡ 1000 → (d : Result TheLine TheFault) × FnOnceReturnsAt F.FnOnce draft (take self.old.last table.old) d × AddsDraft d result self.old table.old self.new table.new }
    {
        let Some(table) = table.as_mut_array::<1000>() else {
            return Err(Fault::of(Refusal::WrongSize));
        };
        let line = draft(self.lines(table))?;
        self.last = put(table, line, self.last, 1000)?;
        Ok(self.last)
    }
}
