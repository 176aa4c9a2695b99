//! Memory for reading.

ghost use Rattle.std.specs.Prelude.{◌≡◌, true};
ghost use Rattle.device.specs.Meanings.{endless, Whole};
ghost use Rattle.std.proofs.Props.{props};
ghost use Rattle.memory.specs.Memories.{memory, fitting};

mod making;

use crate::sectors::copy_out;
use device::checks::is_within;
use device::device::Device;
use faults::device::DeviceFault;

/// Memory that is lent for reading.
// A type apart from memory for writing: it is lent shared, has power always and no writes.
#[derive(Drop)]
pub struct ReadMemory<'a> {
    bytes: &'a [u8],
    sectors: u32,
    ghost count: { sectors ≡ fitting bytes.now },
    ghost whole: { Whole (memory bytes.now true endless) } by { Prim.hlevel props },
}

impl<'a> Device for ReadMemory<'a> {
    ghost meaning = { λ d. memory d.bytes.now true endless };

    ghost whole = { λ d. d.whole };

    fn size(&self) -> u32 {
        self.sectors
    }

    fn state(&mut self, sector: u32) -> Result<(), DeviceFault> {
        if sector >= self.sectors {
            return Err(DeviceFault::Range);
        }
        Ok(())
    }

    fn read(&mut self, place: u32, piece: &mut [u8]) -> Result<(), DeviceFault> {
        if !is_within(self.sectors, place, piece.len()) {
            return Err(DeviceFault::Range);
        }
        copy_out(self.bytes, place, piece);
        Ok(())
    }
}
