// The records of a case text and of a run text, each read from one line.
#![tactic(auto)]

pub mod case_lines;
pub mod fields;
pub mod guards;
pub mod record;
pub mod run_lines;
pub mod text_line;
