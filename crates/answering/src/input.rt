//! The audit of a file that is handed over whole.

ghost use Rattle.std.specs.Prelude.{◌≡◌, ◌≤◌, length, take};
ghost use Rattle.cdb.specs.Verdicts.{Judged};
ghost use Rattle.answering.specs.Answers.{Answers, answer_verdict};

use crate::fault::InputFault;
use auditing::auditing::audit;
use auditing::audits::Counts;
use byte_lists::slices::lay_over;
use file::extents::Extent;
use memory::reading::ReadMemory;

/// The longest file that is taken: 120 sectors.
const LIMIT: usize = 61440;

/// Audits a file of at most 61,440 bytes; a longer one is refused with 27.
pub fn audit_input(input: &[u8]) -> Result<Counts, InputFault>
    ensures { Answers input.now result }
{
    if input.len() > LIMIT {
        return Err(InputFault::Long);
    }
    // The file lies in whole sectors, so that its last bytes are on the device too.
    let mut sectors = [0; LIMIT];
    lay_over(&mut sectors, 0, input);
    audit_laid(&sectors, input.len() as u32)
}

/// Audits the file of `len` bytes that some sectors begin with.
// Memory and length, as the device is of whole sectors: a slice of the file alone would lose its last bytes.
fn audit_laid(sectors: &[u8; LIMIT], len: u32) -> Result<Counts, InputFault>
    requires { len ≤ 61440 }
    ensures { Judged (take len sectors.now) (answer_verdict result) }
{
    let mut device = ReadMemory::new(sectors);
    Ok(audit(&mut device, Extent { start: 0, len })?)
}
