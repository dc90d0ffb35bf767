// What the programs read and print.
#![tactic(auto)]

pub mod answers;
pub mod files;
pub mod printed;
pub mod report;
