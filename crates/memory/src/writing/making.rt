//! The maker of memory for writing, its settings, and the way back to the bytes.

ghost use Rattle.std.specs.Prelude.{◌≡◌, true};
ghost use Rattle.memory.specs.Memories.{memory};
ghost use Rattle.memory.specs.Writing.{writes, with_left};
ghost use Rattle.memory.specs.contracts.writing.WriteMemoryDevice.TheImpl.{ghosts as as_device};

use super::{Budget, RootTear, WriteMemory};
use crate::sectors::count_sectors;

impl<'a> WriteMemory<'a> {
    /// A device of lent bytes: all their whole sectors, each good, with power on and this budget of writes.
    pub fn new(bytes: &'a mut [u8], left: Budget, tear: RootTear) -> WriteMemory<'a>
        ensures meaning { as_device.meaning result ≡ memory bytes.old true (writes left) }
        ensures tear { result.tear ≡ tear }
        ensures lent { (result.bytes.now ≡ bytes.old) × (result.bytes.ghost_name ≡ bytes.entry.ghost_name) }
    {
        let sectors = count_sectors(bytes);
        WriteMemory {
            bytes,
            sectors,
            left,
            power: true,
            tear,
        }
    }

    /// Sets the writes left, and what a torn write of sector 0 stores.
    pub fn set_writes(&mut self, left: Budget, tear: RootTear)
        ensures meaning { as_device.meaning self.new ≡ with_left (as_device.meaning self.old) (writes left) }
        ensures tear { self.new.tear ≡ tear }
        ensures lent { self.new.bytes ≡ self.old.bytes }
    {
        self.left = left;
        self.tear = tear;
    }

    /// The bytes again, as the device left them.
    pub fn into_bytes(self) -> &'a mut [u8]
        ensures bytes { memory result.now (as_device.meaning self.entry).power (as_device.meaning self.entry).left ≡ as_device.meaning self.entry }
        ensures lent { (result.now ≡ self.entry.bytes.now) × (result.ghost_name ≡ self.entry.bytes.ghost_name) }
    {
        let bytes = self.bytes;
        bytes
    }
}
