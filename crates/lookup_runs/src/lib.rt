//! Runs of lookup calls, and the law of lookups on them.
#![tactic(auto)]

pub mod calls;
pub mod changing;
pub mod run;
mod step;
pub mod still;
