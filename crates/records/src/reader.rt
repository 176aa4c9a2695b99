//! The record reader's state.

ghost use Rattle.std.specs.Prelude.{◌≡◌, ◌≤◌};
ghost use Rattle.byte_lists.specs.Bytes.{word_at};

/// A reader over the bytes of a file. It stands at the place of a record, or where the records end, which is where table 0 starts.
#[derive(Clone, Copy)]
pub struct RecordReader<'a> {
    pub(crate) file: &'a [u8],
    pub(crate) place: u32,
    ghost before: { 2048 ≤ word_at file.now 0 → place ≤ word_at file.now 0 },
}
