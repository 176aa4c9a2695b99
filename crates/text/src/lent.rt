//! A record of a text.

/// A record whose key and data are lent. What a text reader hands out borrows them from the text.
#[derive(Clone, Copy, PartialEq, Eq, Debug)]
pub struct LentRecord<'a> {
    pub key: &'a [u8],
    pub data: &'a [u8],
}
