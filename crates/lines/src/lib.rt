// The places of a case's table, and tests of the lines that a call names.
#![tactic(auto)]

pub mod covers;
pub mod line;
pub mod named;
pub mod places;
pub mod writes;
