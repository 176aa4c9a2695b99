//! A device with marked sectors, over any other.

ghost use Rattle.std.specs.Prelude.{◌≡◌, ◌/◌, true, length, Some};
ghost use Rattle.byte_lists.specs.Bytes.{part};
ghost use Rattle.device.specs.Meanings.{refusal, state as state_of, answer, filled, Written};
ghost use Rattle.marks.specs.Layers.{marks_of, meaning_over, Keeps};
ghost use Rattle.marks.specs.Marks.{member};
ghost use Rattle.marks.specs.Whole.{marked_whole};

mod making;

use crate::list::Marks;
use device::checks::is_within;
use device::device::{Device, WritableDevice};
use faults::device::DeviceFault;

/// A device with marked sectors over another.
#[derive(Drop)]
pub struct Marked<D> {
    below: D,
    marks: Marks,
}

impl<D: Device> Device for Marked<D> {
    ghost meaning = { meaning_over D.Device.meaning };

    ghost whole = { λ d. marked_whole _ _ (D.Device.whole d.below) };

    fn size(&self) -> u32 {
        self.below.size()
    }

    // A method's own clauses replace those of the trait, so these stand here again.
    fn state(&mut self, sector: u32) -> Result<(), DeviceFault>
        ensures answer { result ≡ answer (state_of (meaning_over D.Device.meaning self.old) sector) }
        ensures same { meaning_over D.Device.meaning self.new ≡ meaning_over D.Device.meaning self.old }
        ensures keeps { Keeps D.Device.meaning self.old self.new }
    {
        self.below.state(sector)?;
        if self.marks.has(sector) {
            return Err(DeviceFault::Bad(512 * sector));
        }
        Ok(())
    }

    fn read(&mut self, place: u32, piece: &mut [u8]) -> Result<(), DeviceFault>
        ensures answer { result ≡ answer (refusal (meaning_over D.Device.meaning self.old) place (length piece.old)) }
        ensures piece { piece.new ≡ filled (refusal (meaning_over D.Device.meaning self.old) place (length piece.old)) (part (meaning_over D.Device.meaning self.old).bytes place (length piece.old)) piece.old }
        ensures same { meaning_over D.Device.meaning self.new ≡ meaning_over D.Device.meaning self.old }
        ensures keeps { Keeps D.Device.meaning self.old self.new }
    {
        if !self.marks.has(place / 512) {
            return self.below.read(place, piece);
        }
        Err(self.marked_fault(place, piece.len()))
    }
}

impl<D: Device> Marked<D> {
    /// What refuses a piece whose sector is marked.
    fn marked_fault(&mut self, place: u32, n: usize) -> DeviceFault
        requires { member (place / 512) (marks_of self.old) ≡ true }
        ensures fault { refusal (meaning_over D.Device.meaning self.old) place n ≡ Some result }
        ensures same { meaning_over D.Device.meaning self.new ≡ meaning_over D.Device.meaning self.old }
        ensures keeps { Keeps D.Device.meaning self.old self.new }
    {
        if !is_within(self.below.size(), place, n) {
            return DeviceFault::Range;
        }
        let sector = place / 512;
        self.below
            .state(sector)
            .err()
            .unwrap_or(DeviceFault::Bad(512 * sector))
    }
}

impl<D: WritableDevice> WritableDevice for Marked<D> {
    fn write(&mut self, place: u32, piece: &[u8]) -> Result<(), DeviceFault>
        ensures written { Written (meaning_over D.Device.meaning self.old) place piece.now result (meaning_over D.Device.meaning self.new) }
        ensures keeps { Keeps D.Device.meaning self.old self.new }
    {
        if !self.marks.has(place / 512) {
            return self.below.write(place, piece);
        }
        Err(self.marked_fault(place, piece.len()))
    }
}
