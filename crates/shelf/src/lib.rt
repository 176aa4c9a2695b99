//! A shelf of two areas on a device: one has the live file, the other takes the next one.
#![tactic(auto)]

pub mod adding;
pub mod drafting;
pub mod ending;
pub mod fault;
pub mod finishing;
pub mod formatting;
pub mod live;
pub mod opening;
pub mod publishing;
pub mod refusals;
pub mod resting;
pub mod states;
