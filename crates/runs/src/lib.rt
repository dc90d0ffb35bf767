// Runs without end, told by a lead-in and a loop: the interface of a run source, two sources, and where a run first breaks a clause.
#![tactic(auto)]

pub mod assign;
pub mod breaks;
pub mod changes;
mod horizon;
mod lengths;
pub mod moments;
pub mod reads;
pub mod source;
pub mod table;
pub mod task;
pub mod times;
pub mod timetable;
pub mod world;
pub mod worlds;
