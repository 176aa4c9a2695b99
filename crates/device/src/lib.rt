//! Devices: what one means, and what its calls do to that.
#![tactic(auto)]

pub mod checks;
pub mod device;
pub mod pieces;
