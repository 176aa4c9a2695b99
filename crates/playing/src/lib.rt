//! Histories of a shelf, played: call after call, with their laws.
#![tactic(auto)]

pub mod bench;
mod laws;
pub mod making;
pub mod played;
pub mod playing;
pub mod running;
pub mod steps;
