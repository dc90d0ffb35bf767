// What the programs share: what their arguments ask for, and how they end.
#![tactic(auto)]

pub mod endings;
pub mod starts;
