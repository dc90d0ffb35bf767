// Literals, sets of literals and clauses over time, and the faults of everything above them.
#![tactic(auto)]

pub mod faults;
pub mod refusal;
pub mod sets;
pub mod syntax;
