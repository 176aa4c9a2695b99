//! What is counted of a text.

/// How many records a text has, and how many bytes their keys and data have in all.
#[derive(Clone, Copy, PartialEq, Eq, Debug)]
pub struct Tally {
    pub records: usize,
    pub bytes: usize,
}
