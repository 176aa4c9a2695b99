//! Inner: a search for a record's slot, and what it hands on.

/// A record whose slot is searched for: its place, its key's length, and its hash.
// That it stands in the file is a clause of the searches: a struct that says it would hold the lent file.
#[derive(Clone, Copy)]
pub struct Sought {
    pub place: u32,
    pub key: u32,
    pub hash: u32,
}

/// The record's table and distance, and the lowest place so far of a record that overtakes another.
#[derive(Clone, Copy)]
pub struct Search {
    pub table: u32,
    pub distance: u32,
    pub low: u32,
}
