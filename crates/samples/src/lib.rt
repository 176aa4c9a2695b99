//! Worked samples of the format.
#![tactic(auto)]

pub mod samples;
