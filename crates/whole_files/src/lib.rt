//! Files that a program reads whole: dumped as text, and searched for a key.
#![tactic(auto)]

pub mod calls;
pub mod fault;
pub mod whole;
