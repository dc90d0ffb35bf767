ghost use Rattle.std.specs.Prelude.{◌≡◌, ◌<◌, ◌≤◌, length, OnOk};
ghost use Rattle.text.specs.Reading.{lines};
ghost use Rattle.runtext.specs.declared.stage.RunStage.TheVariants.{Start as TheStart};
ghost use Rattle.runtext.specs.Reading.{RunLine, RunEnding, RunReads, RunRead};

use crate::stage::{RunStage, TextRun};
use crate::steps::run_step;
use clause::refusal::{Fault, Refusal};
use records::run_lines::read_run_line;
use runs::source::RunSource;
use text::text_lines::{NumberedLine, TextLines, check_length};

// A line of a run text.
fn take_run_line(numbered: NumberedLine, stage: RunStage) -> Result<RunStage, Fault>
    ensures exact { RunLine numbered.entry.number numbered.entry.line.text.now numbered.entry.line.ended stage result }
    ensures some { OnOk result (0 < length numbered.entry.line.text.now) }
{
    read_run_line(numbered.line)
        .and_then(|what| run_step(stage, what))
        .map_err(|f| f.placed(numbered.number, f.field))
}

// The end of a run text before line n: a world too few is refused.
fn finish_run(stage: RunStage, n: u16) -> Result<TextRun, Fault>
    ensures { RunEnding n stage result }
{
    match stage {
        RunStage::Start => Err(Fault::of(Refusal::WrongState).placed(n, 0)),
        RunStage::Telling { table, told } => {
            if told == table.lead_in() + table.loop_length() {
                Ok(TextRun::Worlds(table))
            } else {
                Err(Fault::of(Refusal::WrongState).placed(n, 0))
            }
        }
        RunStage::Timing(t) => Ok(TextRun::Times(t)),
    }
}

// The lines of a run text, one after another.
fn read_run_lines(text: &[u8]) -> Result<TextRun, Fault>
    requires { length text.now ≤ 65536 }
    ensures { RunReads 1 (lines text.now) TheStart result }
{
    let mut stage = RunStage::Start;
    // `for` would use the lines up, and they tell the number after the last one.
    let mut rest = TextLines::of(text);
    while let Some(line) = rest.next() {
        stage = take_run_line(line, stage)?;
    }
    finish_run(stage, rest.number)
}

// A run text: the run that it describes.
pub fn read_run(text: &[u8]) -> Result<TextRun, Fault>
    ensures { RunRead text.now result }
{
    check_length(text)?;
    read_run_lines(text)
}
