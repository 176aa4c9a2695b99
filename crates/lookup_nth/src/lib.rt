//! The data of a key by their number.
#![tactic(auto)]

pub mod nth;
