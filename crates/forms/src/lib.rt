// Texts cut into lines and fields, and what a field says where it is in its form.
#![tactic(auto)]

pub mod cuts;
pub mod fields;
pub mod lists;
pub mod literals;
pub mod numbers;
pub mod parts;
