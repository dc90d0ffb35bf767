use crate::task::{Slot, Task};
use case::stage::{Intake, Sealed};
use clause::refusal::Fault;
use clause::syntax::{Clause, LitSet};
use lines::line::Line;
use runs::timetable::Timetable;
use std::fmt;

// What is given of the tasks.
#[derive(Clone, Copy)]
pub(crate) enum Given {
    // at most one of the two in any millisecond
    Apart(Task, Task),
    // again and again
    Heard(Task),
}

pub(crate) const GIVEN: [Given; 6] = [
    Given::Apart(Task::InterruptEntry, Task::ConverterRead),
    Given::Apart(Task::InterruptEntry, Task::BusSend),
    Given::Apart(Task::ConverterRead, Task::BusSend),
    Given::Heard(Task::InterruptEntry),
    Given::Heard(Task::ConverterRead),
    Given::Heard(Task::BusSend),
];

impl Given {
    fn clause(self) -> Clause {
        match self {
            Given::Apart(a, b) => {
                let one_rests = LitSet::of(a.rests()).union(LitSet::of(b.rests()));
                Clause::Global(one_rests, LitSet::NONE)
            }
            Given::Heard(a) => Clause::Eventuality(LitSet::NONE, a.runs()),
        }
    }
}

impl fmt::Display for Given {
    fn fmt<W: fmt::Write>(&self, f: &mut fmt::Formatter<W>) -> fmt::Result {
        match *self {
            Given::Apart(a, b) => write!(f, "{a} and {b} never run in the same millisecond"),
            Given::Heard(a) => write!(f, "{a} is heard again and again"),
        }
    }
}

// A case with these clauses given.
pub(crate) fn give(table: &mut [Line], clauses: &[Clause]) -> Result<Sealed, Fault> {
    let mut intake = Intake::new(table)?;
    for clause in clauses {
        intake.give(table, *clause)?;
    }
    let (sealed, _) = intake.seal();
    Ok(sealed)
}

fn timetable(slots: &[Slot]) -> Result<Timetable, Fault> {
    let mut times = Timetable::new();
    for slot in slots {
        times.assign(slot.task as u8, slot.offset, 10, slot.length)?;
    }
    Ok(times)
}

// The lead-in and the loop of a timetable.
#[derive(Clone, Copy)]
pub(crate) struct Span {
    pub(crate) lead_in: u16,
    pub(crate) turn: u16,
}

// Judges a timetable of the tasks: how far it reaches, or the lowest line broken.
pub(crate) fn judge(table: &mut [Line], slots: &[Slot]) -> Result<Span, Fault> {
    let sealed = give(table, &GIVEN.map(|given| given.clause()))?;
    let times = timetable(slots)?;
    let (lead_in, turn) = sealed.show(table, &times)?;
    Ok(Span { lead_in, turn })
}
