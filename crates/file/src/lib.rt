//! Files in extents of a device: reading them across its sectors.
#![tactic(auto)]

pub mod extents;
pub mod making;
pub mod readable;
pub mod readable_file;
pub mod reading;
pub mod words;
