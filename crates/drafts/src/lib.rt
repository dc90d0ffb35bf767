// The lines that calls add to a case, before there is a place for them.
#![tactic(auto)]

pub mod draws;
pub mod infers;
pub mod kinds;
pub mod waits;
