//! Writing many bytes over the sectors of a device.
#![tactic(auto)]

pub mod pieces;
pub mod records;
pub mod zeros;
