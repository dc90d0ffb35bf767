// Case texts: each line a record, each record a call on a case.
#![tactic(auto)]

pub mod cases;
pub mod ends;
pub mod places;
pub mod reading;
pub mod stage;
pub mod steps;
pub mod text_lines;
