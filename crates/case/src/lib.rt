// A case over a lent table of 1,000 places, and the calls on it.
#![tactic(auto)]

mod body;
pub mod intake;
pub mod loop_numbers;
pub mod loops;
pub mod sealed;
pub mod stage;
pub mod verdicts;
