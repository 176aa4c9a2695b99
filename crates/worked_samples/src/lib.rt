//! All worked samples, as one fact.
#![tactic(auto)]

pub mod worked;
