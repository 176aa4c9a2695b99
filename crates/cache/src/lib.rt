//! The page cache over any device.
#![tactic(auto)]

pub mod layer;
mod pages;
