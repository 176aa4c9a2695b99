//! How the programs tell a refusal: in plain words, with its number, table and place.
#![tactic(auto)]

pub mod ending;
pub mod refusal;
