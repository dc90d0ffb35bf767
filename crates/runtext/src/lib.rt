// Run texts: a table of worlds or a timetable, and a case's answer to it.
#![tactic(auto)]

pub mod checks;
pub mod runtexts;
pub mod stage;
pub mod steps;
