//! The hash of a key.

ghost use Rattle.std.specs.Prelude.{◌≡◌, fold};
ghost use Rattle.cdb.specs.Records.{hash_of, hash_step};

/// The hash of a key.
#[tactic(auto, unfolding(crate::specs::Records::hash_of))]
pub fn hash(key: &[u8]) -> u32
    ensures { result ≡ hash_of key.now }
{
    hash_on(5381, key)
}

/// The hash that some bytes make of the hash of those before them.
pub fn hash_on(start: u32, bytes: &[u8]) -> u32
    ensures { result ≡ fold hash_step start bytes.now }
{
    bytes.iter().fold(start, |hash, byte| hash.wrapping_mul(33) ^ u32::from(*byte))
}
