//! Inner: a key beside its hash.

ghost use Rattle.std.specs.Prelude.{◌≡◌};
ghost use Rattle.cdb.specs.Records.{hash_of};

use cdb::hashing::hash;

/// A key and its hash, which is worked out once for all the steps of a lookup.
#[derive(Clone, Copy)]
pub struct HashedKey<'k> {
    pub bytes: &'k [u8],
    pub hash: u32,
    ghost hashed: { hash ≡ hash_of bytes.now },
}

impl<'k> HashedKey<'k> {
    /// A key whose hash is worked out here.
    pub fn new(bytes: &'k [u8]) -> Self
        ensures bytes { result.bytes.now ≡ bytes.now }
    {
        HashedKey {
            bytes,
            hash: hash(bytes),
        }
    }
}
