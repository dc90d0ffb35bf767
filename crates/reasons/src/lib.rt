// What the programs say about a fault.
#![tactic(auto)]

pub mod sentences;
