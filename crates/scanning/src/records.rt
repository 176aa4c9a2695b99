//! Inner: what the walks over records hand on.

/// A record on the way: its key's length, and where it ends.
#[derive(Clone, Copy)]
pub struct Step {
    pub key: u32,
    pub next: u32,
}

/// What is known of all records: their probes, the lowest place of one that breaks rule 8, and how many belong to each table.
// Where none breaks it the place is the end of the records: the lower of two places is one comparison then, where an `Option` would
// be matched at each.
#[derive(Clone, Copy)]
pub struct Placing {
    pub probes: u64,
    pub low: u32,
    pub counts: [u32; 256],
}
