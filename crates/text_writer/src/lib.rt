//! The text of a record list, written; and the line that tells the outcome of a check.
#![tactic(auto)]

pub mod lines;
pub mod outcome;
pub mod sheet;
pub mod writing;
