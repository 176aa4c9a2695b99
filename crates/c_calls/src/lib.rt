//! The audit and the lookup by number for a file in memory, and both as C is told.
#![tactic(auto)]

pub mod exports;
pub mod in_memory;
