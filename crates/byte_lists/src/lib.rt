//! Bytes in slices: parts, pieces laid over, words.
#![tactic(auto)]

pub mod slices;
