// Rule books: what they are, and the two that the method needs.
#![tactic(auto)]

pub mod book;
pub mod resolution;
pub mod trial;
