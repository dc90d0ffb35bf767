ghost use Rattle.std.specs.Prelude.{◌≡◌, ℕ, ◌≤◌, length};
ghost use Rattle.runs.specs.Source.{Source};
ghost use Rattle.runs.specs.Moments.{Read};
ghost use Rattle.lines.specs.View.{lines_of};
ghost use Rattle.case.specs.Verdict.{Refuted, Refutable, Shown, AllAsked, Lowest};

use crate::stage::Sealed;
use clause::refusal::{Fault, Refusal};
use cores::core_of;
use drafts::kinds::check_refutable;
use lines::line::Line;
use lines::named::check_named;
use lines::places::line_at;
use runs::moments::Moments;
use runs::reads::asks;
use runs::source::RunSource;

// The letters that the lines ask for.
fn asked_by(lines: &[Line]) -> u64
    ensures { AllAsked (lines_of lines.now) result }
{
    lines
        .iter()
        .fold(0, |asked, line| asked | asks(line.clause))
}

// The lowest line that the run breaks, and the lowest moment.
fn first_broken(lines: &[Line], moments: &Moments) -> Option<(u16, u16)>
    requires { length lines.now ≤ 200 }
    ensures { (x : Source) (asked : ℕ) → Read x asked moments.now → AllAsked (lines_of lines.now) asked → Lowest x.run (lines_of lines.now) result }
{
    for (n, line) in lines.iter().enumerate() {
        if let Some(i) = moments.first_break(line.clause) {
            return Some((n as u16 + 1, i));
        }
    }
    None
}

// Tests that line n can be refuted: it is there, in force, initial or global, and empty.
fn check_refute(lines: &[Line], n: u16) -> Result<(), Fault>
    ensures { Refutable lines.now n result }
{
    check_named(lines, None, &[n])?;
    check_refutable(line_at(lines, n).clause)
}

impl Sealed {
    // Accepts line n where it is empty, writes its core into a row of 200 numbers, and answers the count.
    pub fn refute(&self, table: &[Line], n: u16, row: &mut [u16]) -> Result<u16, Fault>
        ensures { Refuted n result self.now table.now row.old row.new }
    {
        let Some(table) = table.as_array::<1000>() else {
            return Err(Fault::of(Refusal::WrongSize));
        };
        if row.len() != 200 {
            return Err(Fault::of(Refusal::WrongSize));
        }
        let lines = self.body.lines(table);
        check_refute(lines, n)?;
        Ok(core_of(lines, n, self.body.given, row))
    }

    // Accepts a run that keeps every given line over endless time, and answers its lead-in and its loop.
    pub fn show<R: RunSource>(&self, table: &[Line], source: &R) -> Result<(u16, u16), Fault>
        ensures { Shown (R.meaning source.now) result self.now table.now }
    {
        let Some(table) = table.as_array::<1000>() else {
            return Err(Fault::of(Refusal::WrongSize));
        };
        let lines = &table[..usize::from(self.body.given)];
        let moments = Moments::read(source, asked_by(lines));
        match first_broken(lines, &moments) {
            Some((n, i)) => Err(Fault::at(Refusal::RunBreaks, n, i)),
            None => Ok((source.lead_in(), source.loop_length())),
        }
    }
}
