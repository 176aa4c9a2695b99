//! Lookups in the file of an extent, on any device.
#![tactic(auto)]

pub mod advancing;
pub mod calls;
pub mod cursors;
pub mod keys;
mod searching;
pub mod starting;
mod taking;
