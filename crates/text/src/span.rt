//! Inner: where a record stands in a text.

/// The lengths of key and data, and the place behind the record.
#[derive(Clone, Copy)]
pub struct Span {
    pub(crate) key: u32,
    pub(crate) data: u32,
    pub(crate) next: usize,
}
