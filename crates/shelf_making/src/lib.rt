//! Files made on a shelf, from a text or from a list of records.
#![tactic(auto)]

mod adding;
mod ending;
pub mod fault;
pub mod publishing;
