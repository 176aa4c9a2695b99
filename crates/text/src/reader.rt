//! The text reader's state.

ghost use Rattle.std.specs.Prelude.{◌≤◌, length};

/// A reader over a text. It stands where a record or the end of the text should begin.
#[derive(Clone, Copy)]
pub struct TextReader<'a> {
    pub(crate) text: &'a [u8],
    pub(crate) place: usize,
    ghost inside: { place ≤ length text.now },
}
