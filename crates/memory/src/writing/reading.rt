//! Reading memory that is lent for writing. Its calls take it shared, so they change nothing of it.

ghost use Rattle.std.specs.Prelude.{◌≡◌, length};
ghost use Rattle.byte_lists.specs.Bytes.{part};
ghost use Rattle.device.specs.Meanings.{refusal, state as state_of, answer, filled};
ghost use Rattle.memory.specs.contracts.writing.WriteMemoryDevice.TheImpl.{ghosts as as_device};

use super::WriteMemory;
use crate::sectors::copy_out;
use device::checks::is_within;
use faults::device::DeviceFault;

impl<'a> WriteMemory<'a> {
    /// Whether a sector can be used: refuses 11 or 21.
    pub fn state(&self, sector: u32) -> Result<(), DeviceFault>
        ensures answer { result ≡ answer (state_of (as_device.meaning self.now) sector) }
    {
        if sector >= self.sectors {
            return Err(DeviceFault::Range);
        }
        if !self.power {
            return Err(DeviceFault::Power);
        }
        Ok(())
    }

    /// Fills a piece: refuses 11 or 21, and leaves the piece then.
    pub fn read(&self, place: u32, piece: &mut [u8]) -> Result<(), DeviceFault>
        ensures answer { result ≡ answer (refusal (as_device.meaning self.now) place (length piece.old)) }
        ensures piece { piece.new ≡ filled (refusal (as_device.meaning self.now) place (length piece.old)) (part (as_device.meaning self.now).bytes place (length piece.old)) piece.old }
    {
        if !is_within(self.sectors, place, piece.len()) {
            return Err(DeviceFault::Range);
        }
        if !self.power {
            return Err(DeviceFault::Power);
        }
        copy_out(self.bytes, place, piece);
        Ok(())
    }
}
