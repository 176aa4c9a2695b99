//! The states of a shelf: plain numbers, moved from call to call.

ghost use Rattle.std.specs.Prelude.{◌+◌, ◌*◌, ◌≤◌};
ghost use Rattle.areas.specs.Geometry.{other, area_size};

use crate::live::LiveFile;

// Each state has `live`, and both drafts have `abandon`, as methods of their own: a trait would be longer, and callers would have to
// import it.

/// A shelf at rest.
#[derive(Drop)]
pub struct Shelf {
    pub(crate) live: LiveFile,
}

/// A draft in the area beside the live one, to which records can be added.
// The entries of its records lie in memory that is lent to each call: there is no heap, and a draft would keep the loan while it rests.
#[derive(Drop)]
pub struct Draft {
    pub(crate) live: LiveFile,
    /// Where the next record goes, in the draft's file.
    pub(crate) position: u32,
    /// How many records it has.
    pub(crate) records: u32,
    ghost past: { 2048 ≤ position },
    ghost room: { position + 16 * records ≤ area_size live.sectors (other live.root.area) },
}

/// A draft with its tables and its header.
#[derive(Drop)]
pub struct Finished {
    pub(crate) live: LiveFile,
    /// The length of the draft's file.
    pub(crate) made: u32,
    ghost past: { 2048 ≤ made },
    ghost room: { made ≤ area_size live.sectors (other live.root.area) },
}
