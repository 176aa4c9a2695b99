//! Worked samples of the format.

ghost use Rattle.std.specs.Prelude.{◌≡◌};
ghost use Rattle.samples.specs.Samples.{Samples};

use cdb::hashing::hash;

/// Makes the samples known to a proof.
fn know_samples()
    ensures { Samples }
{}

/// The hashes of the empty key and of the key `a`. Its contract holds every sample.
pub fn sample_hashes() -> (u32, u32)
    ensures empty { result.0 ≡ 5381 }
    ensures a { result.1 ≡ 177604 }
    ensures samples { Samples }
{
    know_samples();
    (hash(b""), hash(b"a"))
}
