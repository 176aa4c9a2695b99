//! Whole files made from texts.
#![tactic(auto)]

pub mod fault;
pub mod in_memory;
pub mod sizes;
pub mod whole;
mod writing_records;
