//! The records of a file in memory, read in place.
#![tactic(auto)]

pub mod placed;
pub mod reader;
pub mod reading;
