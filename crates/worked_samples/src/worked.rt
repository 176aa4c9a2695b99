//! The worked samples of format, text, lookup and audit.

ghost use Rattle.std.specs.Prelude.{◌≡◌, IfOk, codes, string_bytes};
ghost use Rattle.worked_samples.specs.Worked.{WorkedSamples};

use answering::line::line;
use auditing::audits::Counts;
use std::alloc::{AllocError, Global};

/// Makes the samples known to a proof.
fn know_samples()
    ensures { WorkedSamples }
{}

/// What the audit program prints of a file with two records of one key in four slots. Its contract holds every worked sample.
pub fn printed_sample(heap: Global) -> Result<String, AllocError>
    ensures printed { IfOk result (λ s. string_bytes s ≡ codes "ok,2,4,3\n") }
    ensures samples { WorkedSamples }
{
    know_samples();
    line(
        heap,
        Ok(Counts {
            records: 2,
            slots: 4,
            probes: 3,
        }),
    )
}
