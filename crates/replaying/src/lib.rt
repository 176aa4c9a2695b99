//! Scripts, run on a device in memory.
#![tactic(auto)]

pub mod answers;
pub mod bed;
pub mod replay;
pub mod steps;
