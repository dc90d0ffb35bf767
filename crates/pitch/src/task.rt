use clause::syntax::Literal;
use std::fmt;

// The tasks of the processor. The letter of a task is true where it runs.
#[derive(Clone, Copy)]
pub(crate) enum Task {
    InterruptEntry = 0,
    ConverterRead = 1,
    BusSend = 2,
}

impl Task {
    pub(crate) fn runs(self) -> Literal {
        yes(self as u8)
    }

    pub(crate) fn rests(self) -> Literal {
        no(self as u8)
    }
}

impl fmt::Display for Task {
    fn fmt<W: fmt::Write>(&self, f: &mut fmt::Formatter<W>) -> fmt::Result {
        f.write_str(match self {
            Task::InterruptEntry => "interrupt entry",
            Task::ConverterRead => "converter read",
            Task::BusSend => "bus send",
        })
    }
}

pub(crate) fn yes(letter: u8) -> Literal {
    Literal {
        letter,
        positive: true,
    }
}

pub(crate) fn no(letter: u8) -> Literal {
    Literal {
        letter,
        positive: false,
    }
}

// A task runs for `length` of every 10 ms, from `offset` on.
#[derive(Clone, Copy)]
pub(crate) struct Slot {
    pub(crate) task: Task,
    pub(crate) offset: u16,
    pub(crate) length: u16,
}

impl fmt::Display for Slot {
    fn fmt<W: fmt::Write>(&self, f: &mut fmt::Formatter<W>) -> fmt::Result {
        let Slot {
            task,
            offset,
            length,
        } = *self;
        write!(f, "{task}: {length} of every 10 ms, from {offset} ms on")
    }
}
