//! Whole lookups: all the data of a key, copied out of the file.
#![tactic(auto)]

pub mod gather;
