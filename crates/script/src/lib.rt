//! The script of calls of a shelf: its lines, its text, and the lines that answer them.
#![tactic(auto)]

pub mod answer;
pub mod command;
pub mod line;
pub mod phrase;
pub mod reason;
pub mod terms;
pub mod verb;
pub mod whole;
pub mod words;
