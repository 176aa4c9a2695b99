//! What is refused, and how a refusal is told: by number, table and place.
#![tactic(auto)]

pub mod device;
pub mod file;
pub mod report;
