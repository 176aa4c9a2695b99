//! The tables and the header of a file, written on a device from entries.
#![tactic(auto)]

pub mod closing;
pub mod entries;
mod filling;
pub mod heading;
mod layout;
mod placing;
