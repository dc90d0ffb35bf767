ghost use Rattle.std.specs.Prelude.{◌≡◌, ℕ, ◌+◌, ◌<◌, ◌≤◌};
ghost use Rattle.runtext.specs.Steps.{WorldTold, Begins, Tells, Assigns, RunStep};

use crate::stage::RunStage;
use clause::refusal::{Fault, Refusal};
use clause::sets::bit_at;
use forms::lists::Letters;
use records::fields::misread;
use records::record::RunRecord;
use runs::source::RunSource;
use runs::table::WorldTable;
use runs::timetable::Timetable;

// The table with the letters of the world n told.
fn told(w: WorldTable, n: u16, letters: u32) -> WorldTable
    requires { n < w.lead + w.turn }
    ensures { WorldTold n letters w result }
{
    let mut table = w;
    for k in 0..20u8 {
        let yes = bit_at(u64::from(letters), k);
        let Ok(_) = table.change(n, k, yes) else {
            unreachable()
        };
    }
    table
}

// The letters of the next world.
fn tell(w: WorldTable, n: u16, letters: Letters) -> Result<RunStage, Fault>
    ensures { Tells w n letters result }
{
    if n >= w.lead_in() + w.loop_length() {
        return Err(Fault::of(Refusal::WrongState));
    }
    if letters.over.is_some() {
        return Err(misread(Refusal::LetterRange, 2));
    }
    Ok(RunStage::Telling {
        table: told(w, n, letters.mask),
        told: n + 1,
    })
}

fn begin(lead: u16, turn: u16) -> Result<RunStage, Fault>
    ensures { Begins lead turn result }
{
    let table = WorldTable::new(lead, turn)?;
    Ok(RunStage::Telling { table, told: 0 })
}

fn assign(
    t: Timetable,
    letter: u8,
    offset: u16,
    period: u16,
    length: u16,
) -> Result<RunStage, Fault>
    ensures { Assigns t letter offset period length result }
{
    let mut tasks = t;
    match tasks.assign(letter, offset, period, length) {
        Ok(_) => Ok(RunStage::Timing(tasks)),
        Err(f) => match f.refusal {
            Refusal::LetterRange => Err(misread(f.refusal, 2)),
            _ => Err(f),
        },
    }
}

// One record of a run text; a key that does not fit the stage is refused.
pub(crate) fn run_step(stage: RunStage, what: RunRecord) -> Result<RunStage, Fault>
    ensures { RunStep stage what result }
{
    match (stage, what) {
        (RunStage::Start, RunRecord::Worlds { lead, turn }) => begin(lead, turn),
        (RunStage::Start, RunRecord::Tasks) => Ok(RunStage::Timing(Timetable::new())),
        (RunStage::Telling { table, told }, RunRecord::World(letters)) => tell(
            table, told, letters,
        ),
        (
            RunStage::Timing(t),
            RunRecord::Task {
                letter,
                offset,
                period,
                length,
            },
        ) => { assign(t, letter, offset, period, length) }
        _ => Err(Fault::of(Refusal::WrongState)),
    }
}
