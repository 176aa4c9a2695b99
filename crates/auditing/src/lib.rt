//! The audit: whether a file is lawful, and if not, where it first breaks which rule.
#![tactic(auto)]

pub mod auditing;
pub mod audits;
pub mod tables;
