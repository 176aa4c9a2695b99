//! What a lookup keeps and what it finds: plain numbers, of which every value is met by some answer.

use file::extents::Extent;

/// The place and the length of a record's data in the file.
#[derive(Clone, Copy)]
pub struct Found {
    pub place: u32,
    pub len: u32,
}

/// A lookup of the keys of one hash: where the table of the hash stands, how many slots it has, and how many of them are probed.
#[derive(Clone, Copy)]
pub struct Cursor {
    pub extent: Extent,
    pub hash: u32,
    pub position: u32,
    pub slots: u32,
    pub probed: u32,
}

/// What a slot holds for a key.
// Three names say more than an `Option` in an `Option`.
#[derive(Clone, Copy)]
pub enum Probe {
    /// Nothing.
    Empty,
    /// A record of another key.
    Other,
    /// A record of the key; its data.
    Match(Found),
}

/// What a walk over slots found, and how many slots are probed then.
#[derive(Clone, Copy)]
pub struct Step {
    pub found: Option<Found>,
    pub probed: u32,
}
