ghost use Rattle.std.specs.Prelude.{◌≡◌, ℕ, ◌≤◌, length, IfOk, None};
ghost use Rattle.protocol.specs.State.{fresh as the_fresh};
ghost use Rattle.case.specs.View.{view_sealed};
ghost use Rattle.text.specs.Promise.{Promised, Agrees, NoRun, givens};
ghost use Rattle.text.specs.Reading.{lines, Comes, TextRead};

use crate::reading::Reading;
use crate::stage::{Stage, Verdict};
use crate::text_lines::{TextLines, check_length};
use case::stage::{Intake, Sealed};
use clause::refusal::{Fault, Refusal};
use lines::line::Line;

// The lines of a text, one after another, from an empty case.
fn read_lines(
    text: &[u8],
    table: &mut [Line; 1000],
    row: &mut [u16],
) -> Result<(Sealed, Verdict), Fault>
    requires { length text.now ≤ 65536 }
    ensures { Comes 1 (lines text.now) None the_fresh row.old result table.new row.new }
{
    let Ok(i) = Intake::new(table) else {
        unreachable()
    };
    let mut reading = Reading {
        stage: Stage::Taking(i),
        found: None,
    };
    // `for` would use the lines up, and they tell the number after the last one.
    let mut rest = TextLines::of(text);
    while let Some(line) = rest.next() {
        match reading.take(line, table, row) {
            Ok(next) => reading = next,
            Err(refused) => {
                let (last, f) = refused;
                last.leave(table);
                return Err(f);
            }
        }
    }
    reading.finish(rest.number, table)
}

// A case text, into a table of 1,000 places and a row of 200 numbers: the sealed case and its verdict.
pub fn read_case(
    text: &[u8],
    table: &mut [Line],
    row: &mut [u16],
) -> Result<(Sealed, Verdict), Fault>
    ensures exact { TextRead text.now table.old row.old result table.new row.new }
    ensures verdict { IfOk result (λ p. Promised (givens (lines text.now)) row.new p.1) }
    ensures given { IfOk result (λ p. Agrees (view_sealed p.0 table.new) (givens (lines text.now))) }
    ensures no_run { IfOk result (λ p. NoRun (givens (lines text.now)) p.1) }
{
    if row.len() != 200 {
        return Err(Fault::of(Refusal::WrongSize));
    }
    let Some(table) = table.as_mut_array::<1000>() else {
        return Err(Fault::of(Refusal::WrongSize));
    };
    check_length(text)?;
    read_lines(text, table, row)
}
