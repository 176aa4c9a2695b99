//! The text of a record list, and its reader.
#![tactic(auto)]

pub mod fault;
pub mod lent;
pub mod reader;
pub mod reading;
pub mod samples;
pub mod scan;
pub mod span;
pub mod state;
pub mod tally;
pub mod whole;
