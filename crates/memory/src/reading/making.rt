//! The maker of memory for reading.

ghost use Rattle.std.specs.Prelude.{◌≡◌, true};
ghost use Rattle.device.specs.Meanings.{endless};
ghost use Rattle.memory.specs.Memories.{memory};
ghost use Rattle.memory.specs.contracts.reading.ReadMemoryDevice.TheImpl.{ghosts as as_device};

use super::ReadMemory;
use crate::sectors::count_sectors;

impl<'a> ReadMemory<'a> {
    /// A device of lent bytes: all their whole sectors, each good, with power on.
    pub fn new(bytes: &'a [u8]) -> ReadMemory<'a>
        ensures { as_device.meaning result ≡ memory bytes.now true endless }
    {
        let sectors = count_sectors(bytes);
        ReadMemory { bytes, sectors }
    }
}
