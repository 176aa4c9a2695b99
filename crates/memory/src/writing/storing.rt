//! Writing to memory.

ghost use Rattle.std.specs.Prelude.{◌≡◌, true, length, None};
ghost use Rattle.device.specs.Meanings.{Written, Cut, refusal, spent, stored};
ghost use Rattle.memory.specs.Memories.{tail};
ghost use Rattle.memory.specs.Writing.{writes, torn, outcome};
ghost use Rattle.memory.specs.contracts.writing.WriteMemoryDevice.TheImpl.{ghosts as as_device};

use super::{Budget, WriteMemory};
use byte_lists::slices::{know_bytes, lay_over};
use device::checks::is_within;
use device::device::{Device, WritableDevice};
use faults::device::DeviceFault;

impl<'a> WriteMemory<'a> {
    /// Writes as every device does, and says its one result, a torn write's too.
    // What stays is said clause by clause, here and in the two halves below, so that a caller cites what it needs.
    pub fn write(&mut self, place: u32, piece: &[u8]) -> Result<(), DeviceFault>
        ensures written { Written (as_device.meaning self.old) place piece.now result (as_device.meaning self.new) }
        ensures answer { result ≡ (outcome self.old.tear (as_device.meaning self.old) place piece.now).answer }
        ensures device { as_device.meaning self.new ≡ (outcome self.old.tear (as_device.meaning self.old) place piece.now).device }
        ensures tear { self.new.tear ≡ self.old.tear }
        ensures tail { tail self.new.bytes.now ≡ tail self.old.bytes.now }
        ensures lent { self.new.bytes.ghost_name ≡ self.old.bytes.ghost_name }
    {
        if !is_within(self.sectors, place, piece.len()) {
            return Err(DeviceFault::Range);
        }
        if !self.power {
            return Err(DeviceFault::Power);
        }
        match self.left.after_write() {
            Some(left) => {
                self.store(place, piece, left);
                Ok(())
            }
            None => {
                self.tear(place, piece);
                Err(DeviceFault::Power)
            }
        }
    }

    /// Stores a piece, and has so many writes left.
    fn store(&mut self, place: u32, piece: &[u8], left: Budget)
        requires free { refusal (as_device.meaning self.old) place (length piece.now) ≡ None }
        ensures meaning { as_device.meaning self.new ≡ stored (as_device.meaning self.old) place piece.now (writes left) }
        ensures tear { self.new.tear ≡ self.old.tear }
        ensures tail { tail self.new.bytes.now ≡ tail self.old.bytes.now }
        ensures lent { self.new.bytes.ghost_name ≡ self.old.bytes.ghost_name }
    {
        know_bytes(piece);
        lay_over(self.bytes, place as usize, piece);
        self.left = left;
    }

    /// Stores the front of a piece as power goes.
    fn tear(&mut self, place: u32, piece: &[u8])
        requires free { refusal (as_device.meaning self.old) place (length piece.now) ≡ None }
        ensures meaning { as_device.meaning self.new ≡ torn self.old.tear (as_device.meaning self.old) place piece.now }
        ensures cut { Cut (as_device.meaning self.old) place piece.now (as_device.meaning self.new) }
        ensures tear { self.new.tear ≡ self.old.tear }
        ensures tail { tail self.new.bytes.now ≡ tail self.old.bytes.now }
        ensures lent { self.new.bytes.ghost_name ≡ self.old.bytes.ghost_name }
    {
        know_bytes(piece);
        let n = self.tear.stored_of(place, piece.len());
        lay_over(self.bytes, place as usize, &piece[..n]);
        self.power = false;
    }
}

impl<'a> WritableDevice for WriteMemory<'a> {
    fn write(&mut self, place: u32, piece: &[u8]) -> Result<(), DeviceFault> {
        WriteMemory::write(self, place, piece)
    }
}
