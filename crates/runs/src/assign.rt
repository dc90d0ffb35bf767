ghost use Rattle.std.specs.Prelude.{◌≡◌, ℕ, ◌+◌, ◌≤◌, replicate, Some, None};
ghost use Rattle.runs.specs.Loops.{Common, Least, greatest, offset_of as the_offset_of};
ghost use Rattle.runs.specs.Assigns.{Made, MadeOf, TaskOf, Assigned};

use crate::lengths::loop_of;
use crate::task::Task;
use crate::timetable::Timetable;
use clause::refusal::{Fault, Refusal};

fn offset_of(slot: Option<Task>) -> u8
    ensures { result ≡ the_offset_of slot }
{
    slot.map_or(0, |task| task.offset)
}

// The greatest offset.
fn lead_of(tasks: &[Option<Task>]) -> u8
    ensures { result ≡ greatest tasks.now }
{
    tasks
        .iter()
        .fold(0, |lead, slot| lead.max(offset_of(*slot)))
}

fn task_of(offset: u16, period: u16, length: u16) -> Option<Task>
    ensures { TaskOf offset period length result }
{
    let offset = u8::try_from(offset).ok()?;
    let period = u8::try_from(period).ok()?;
    let length = u8::try_from(length).ok()?;
    if period < 1 || period > 64 || length > period {
        return None;
    }
    Some(Task {
        offset,
        period,
        length,
    })
}

impl Timetable {
    fn made(tasks: [Option<Task>; 20], lead: u16, turn: u16) -> Timetable
        requires small { lead + turn ≤ 4096 }
        requires lead { lead ≡ greatest tasks }
        requires turn { Least (Common tasks) (Some turn) }
        ensures { Made tasks result }
    {
        Timetable { tasks, lead, turn }
    }

    // A timetable of these tasks, where its lead-in and its loop have at most 4,096 moments.
    pub fn of(tasks: [Option<Task>; 20]) -> Option<Timetable>
        ensures { MadeOf tasks result }
    {
        let lead = u16::from(lead_of(&tasks));
        let turn = loop_of(&tasks)?;
        if lead + turn > 4096 {
            return None;
        }
        Some(Timetable::made(tasks, lead, turn))
    }

    // A timetable without tasks: every letter is no at every moment.
    pub fn new() -> Timetable
        ensures { Made (replicate 20 None) result }
    {
        Timetable::made([None; 20], 0, 1)
    }

    // Sets the task of a letter, in place of the one that it had.
    pub fn assign(&mut self, letter: u8, offset: u16, period: u16, length: u16) -> Result<(), Fault>
        ensures { Assigned letter offset period length self.old self.new result }
    {
        if letter > 19 {
            return Err(Fault::of(Refusal::LetterRange));
        }
        let out_of_range = Fault::of(Refusal::OutOfRange);
        let task = task_of(offset, period, length).ok_or(out_of_range)?;
        let mut tasks = self.tasks;
        tasks[usize::from(letter)] = Some(task);
        *self = Timetable::of(tasks).ok_or(out_of_range)?;
        Ok(())
    }
}
