//! What a device does to its meaning.

ghost use Rattle.std.specs.Prelude.{◌≡◌, ℕ, ◌+◌, ◌-◌, ◌*◌, ◌/◌, ◌%◌, ◌^◌, ◌<◌, ◌≤◌, length};
ghost use Rattle.byte_lists.specs.Bytes.{part};
ghost use Rattle.device.specs.Meanings.{Meaning, Whole, refusal, state as state_of, answer, filled, Written};

use faults::device::DeviceFault;

/// A device that can be read.
// That a call leaves the meaning is a clause of every function that takes a device by `&mut`: a shared borrow would say it, but a
// cache changes its pages when it is read.
pub trait Device {
    /// What the device means.
    ghost meaning: { Self → Meaning };

    /// The number of its sectors.
    fn size(&self) -> u32
        ensures { result ≡ (meaning self.now).sectors };

    /// Whether a sector can be used: refuses 11, 21 or 22.
    fn state(&mut self, sector: u32) -> Result<(), DeviceFault>
        ensures answer { result ≡ answer (state_of (meaning self.old) sector) }
        ensures same { meaning self.new ≡ meaning self.old };

    /// Fills a piece that lies in one sector: refuses 11, 21 or 22, and leaves the piece then.
    fn read(&mut self, place: u32, piece: &mut [u8]) -> Result<(), DeviceFault>
        ensures answer { result ≡ answer (refusal (meaning self.old) place (length piece.old)) }
        ensures piece { piece.new ≡ filled (refusal (meaning self.old) place (length piece.old)) (part (meaning self.old).bytes place (length piece.old)) piece.old }
        ensures same { meaning self.new ≡ meaning self.old };

    /// Every device is whole.
    ghost whole: { (d : Self) → Whole (meaning d) };
}

/// A device that can be written too.
pub trait WritableDevice: Device {
    /// Stores a piece that lies in one sector: refuses 11, 21 or 22, and changes nothing then, unless power goes.
    fn write(&mut self, place: u32, piece: &[u8]) -> Result<(), DeviceFault>
        ensures { Written (Self.Device.meaning self.old) place piece.now result (Self.Device.meaning self.new) };
}
