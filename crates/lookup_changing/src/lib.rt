//! A device for runs of lookup calls that changes between them.
#![tactic(auto)]

pub mod flipping;
