//! What a record is known by until the tables are made.

ghost use Rattle.std.specs.Prelude.{◌≡◌};
ghost use Rattle.building.specs.Entries.{table_of};

/// The hash of a record's key, and the record's place in its file.
#[derive(Clone, Copy, PartialEq, Eq, Debug)]
pub struct Entry {
    pub hash: u32,
    pub place: u32,
}

impl Entry {
    /// The number of the table that it belongs to.
    pub(crate) fn table(self) -> usize
        ensures { result ≡ table_of self }
    {
        (self.hash % 256) as usize
    }
}
