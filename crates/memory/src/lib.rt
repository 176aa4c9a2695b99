//! Memory as a device, for reading and for writing.
#![tactic(auto)]

pub mod reading;
pub mod sectors;
pub mod writing;
