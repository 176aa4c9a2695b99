//! The two areas of a shelf, and its root.
#![tactic(auto)]

pub mod area;
pub mod places;
pub mod roots;
