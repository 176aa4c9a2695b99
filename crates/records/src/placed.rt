//! A record as it is handed out.

ghost use Rattle.std.specs.Prelude.{◌≡◌, ◌+◌, ◌^◌, ◌<◌, length};

/// A record of a file: its place, its key and its data as parts of the file, and the place of the data. The key starts 8 bytes behind the place.
#[derive(Clone, Copy, PartialEq, Eq, Debug)]
pub struct PlacedRecord<'a> {
    pub place: u32,
    pub key: &'a [u8],
    pub data: &'a [u8],
    pub data_place: u32,
}

impl PlacedRecord<'_> {
    /// The place behind the record.
    pub(crate) fn end(&self) -> u32
        requires { self.now.data_place + length self.now.«data».now < 2 ^ 32 }
        ensures { result ≡ self.now.data_place + length self.now.«data».now }
    {
        self.data_place + self.data.len() as u32
    }
}
