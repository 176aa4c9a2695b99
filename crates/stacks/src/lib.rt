//! Stacks of devices over memory for writing, and code for any device.
#![tactic(auto)]

pub mod over_memory;
pub mod sectors;
