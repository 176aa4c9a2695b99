//! Inner: what a scan of a readable file finds: its header, its records, and the slot of each.
#![tactic(auto)]

pub mod header;
pub mod placing;
pub mod records;
pub mod searches;
pub mod searching;
pub mod walk;
