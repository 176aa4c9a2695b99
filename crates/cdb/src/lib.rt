//! The cdb format: hash, records, tables, files, and the rules that a file is judged by.
#![tactic(auto)]

pub mod hashing;
pub mod tables;
pub mod theorems;
