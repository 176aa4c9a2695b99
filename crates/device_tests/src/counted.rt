//! A device of one's own: it counts the reads that reach the device below.

ghost use Rattle.std.specs.Prelude.{◌≡◌};

use device::device::{Device, WritableDevice};
use faults::device::DeviceFault;

/// A device that counts its reads.
#[derive(Drop)]
pub(crate) struct Counted<D> {
    below: D,
    reads: u32,
}

impl<D: Device> Counted<D> {
    /// No read yet.
    pub(crate) fn new(below: D) -> Counted<D>
        ensures meaning { D.Device.meaning result.below ≡ D.Device.meaning below }
        ensures reads { result.reads ≡ 0 }
    {
        Counted { below, reads: 0 }
    }

    /// How many reads there were.
    pub(crate) fn reads(&self) -> u32
        ensures { result ≡ self.now.reads }
    {
        self.reads
    }
}

impl<D: Device> Device for Counted<D> {
    ghost meaning = { λ d. D.Device.meaning d.below };

    ghost whole = { λ d. D.Device.whole d.below };

    fn size(&self) -> u32 {
        self.below.size()
    }

    fn state(&mut self, sector: u32) -> Result<(), DeviceFault> {
        self.below.state(sector)
    }

    fn read(&mut self, place: u32, piece: &mut [u8]) -> Result<(), DeviceFault> {
        self.reads = self.reads.saturating_add(1);
        self.below.read(place, piece)
    }
}

impl<D: WritableDevice> WritableDevice for Counted<D> {
    fn write(&mut self, place: u32, piece: &[u8]) -> Result<(), DeviceFault> {
        self.below.write(place, piece)
    }
}
