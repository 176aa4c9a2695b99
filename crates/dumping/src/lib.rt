//! The dump of a file: its records as text.
#![tactic(auto)]

pub mod dumping;
pub mod fault;
mod laying;
mod measuring;
mod walking;
