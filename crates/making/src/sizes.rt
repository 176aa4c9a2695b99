//! How much memory the making of a file takes.

ghost use Rattle.std.specs.Prelude.{◌≡◌, ◌+◌, ◌%◌, ◌<◌, ◌≤◌};
ghost use Rattle.making.specs.Sizes.{FitsIn, Measures};

use crate::fault::MakeFault;
use text::tally::Tally;
use text::whole::tally;

/// The bytes of the largest device.
const LARGEST: u32 = 4294966784;

/// How many records the file of a text has, each of which takes an entry, and how long the file is.
#[derive(Clone, Copy, PartialEq, Eq, Debug)]
pub struct FileSize {
    pub records: usize,
    pub len: u32,
}

impl FileSize {
    /// How much memory the file takes: whole sectors.
    pub fn memory(&self) -> usize
        ensures whole { result % 512 ≡ 0 }
        ensures enough { self.now.len ≤ result }
        ensures least { result < self.now.len + 512 }
    {
        (self.len as usize).next_multiple_of(512)
    }
}

/// How long the file of so many records is: a header, the records, and two slots for each. It is refused past a limit.
pub(crate) fn len_within(counts: Tally, limit: u32) -> Result<u32, MakeFault>
    ensures { FitsIn counts limit result }
{
    let most = limit as usize;
    if counts.records > most || counts.bytes > most {
        return Err(MakeFault::Long(limit));
    }
    let len = 2048 + counts.bytes + 24 * counts.records;
    if len > most {
        return Err(MakeFault::Long(limit));
    }
    Ok(len as u32)
}

/// Measures the file of a text. It refuses a malformed text, and a file that no device holds.
pub fn file_size(text: &[u8]) -> Result<FileSize, MakeFault>
    ensures { Measures text.now result }
{
    let counts = tally(text)?;
    let len = len_within(counts, LARGEST)?;
    Ok(FileSize {
        records: counts.records,
        len,
    })
}
