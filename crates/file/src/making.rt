//! Making extents.

ghost use Rattle.file.specs.Extents.{MakesExtent};

use crate::extents::Extent;
use faults::file::FileFault;

/// The largest sum of an extent's start and length: the bytes of the largest device.
const LARGEST: u64 = 4294966784;

impl Extent {
    /// An extent, or 11 where start and length are more than any device has.
    pub fn new(start: u32, len: u32) -> Result<Extent, FileFault>
        ensures { MakesExtent start len result }
    {
        if start as u64 + len as u64 > LARGEST {
            return Err(FileFault::Range);
        }
        Ok(Extent { start, len })
    }
}
