//! The bad-sector layer: sectors of any device are marked bad.
#![tactic(auto)]

pub mod fault;
pub mod layer;
pub mod list;
