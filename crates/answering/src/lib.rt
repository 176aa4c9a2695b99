//! From the bytes of a file to the line that tells the audit's answer.
#![tactic(auto)]

pub mod fault;
pub mod input;
pub mod line;
