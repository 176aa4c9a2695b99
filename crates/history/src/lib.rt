//! Histories of a shelf: calls, what they leave, and the laws of every history.
#![tactic(auto)]

pub mod calls;
pub mod laws;
