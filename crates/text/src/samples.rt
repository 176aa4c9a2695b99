//! Small texts.

ghost use Rattle.std.specs.Prelude.{◌≡◌, Err, codes};
ghost use Rattle.text.specs.declared.fault.TextFault.TheVariants.{Malformed};
ghost use Rattle.text.specs.Samples.{Samples};

use crate::fault::TextFault;
use crate::tally::Tally;
use crate::whole::tally;

/// Counts the records of `+01,1:a->1`, which is refused at its leading zero. The other samples stand with it.
pub fn leading_zero() -> Result<Tally, TextFault>
    ensures refused { result ≡ Err (Malformed 2) }
    ensures samples { Samples }
{
    tally(b"+01,1:a->1")
}
