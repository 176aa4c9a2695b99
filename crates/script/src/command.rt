//! What a line of a script says.

/// The part of a torn write of sector 0 that is stored.
#[derive(Clone, Copy, PartialEq, Eq, Debug)]
pub enum Tear {
    All,
    Nothing,
}

/// The sizes of a script's device: its sectors, and the entries of the entry memory.
#[derive(Clone, Copy, PartialEq, Eq, Debug)]
pub struct Sizes {
    pub sectors: u32,
    pub entries: u32,
}

/// A command. Keys and data are slices of the script.
#[derive(Clone, Copy, PartialEq, Eq, Debug)]
pub enum Command<'a> {
    Format,
    Open,
    Begin,
    /// With a key and its data.
    Add(&'a [u8], &'a [u8]),
    Finish,
    Publish,
    Abandon,
    /// All data of a key.
    Get(&'a [u8]),
    /// A sector goes bad.
    Mark(u32),
    /// After so many more writes the power goes.
    Cut(u32, Tear),
    /// The power comes back.
    Power,
    /// The entry with an index gets a hash and a place.
    Scribble(u32, u32, u32),
}

/// What a line says.
#[derive(Clone, Copy, PartialEq, Eq, Debug)]
pub enum Statement<'a> {
    /// The device on which the script runs.
    Device(Sizes),
    Command(Command<'a>),
}
