//! Writing through a cache.

ghost use Rattle.std.specs.Prelude.{◌≡◌, ◌/◌, length, None};
ghost use Rattle.device.specs.Meanings.{refusal, spent, Written};
ghost use Rattle.cache.specs.Pages.{after_write};
ghost use Rattle.cache.specs.Caches.{pages_of, meaning_over};

use super::Cache;
use device::checks::is_within;
use device::device::{Device, WritableDevice};
use faults::device::DeviceFault;

impl<D: WritableDevice> Cache<D> {
    /// Writes below what nothing refuses, and then mends the page of the sector.
    fn write_through(&mut self, place: u32, piece: &[u8]) -> Result<(), DeviceFault>
        requires free { refusal (meaning_over D.Device.meaning self.old) place (length piece.now) ≡ None }
        ensures written { Written (meaning_over D.Device.meaning self.old) place piece.now result (meaning_over D.Device.meaning self.new) }
        ensures pages { pages_of self.new ≡ after_write None (spent (meaning_over D.Device.meaning self.old).left) (meaning_over D.Device.meaning self.new) (place / 512) (pages_of self.old) }
    {
        let done = self.below.write(place, piece);
        match done {
            Ok(()) => self.pages.update(place, piece),
            Err(_) => self.pages.forget(place / 512),
        }
        done
    }
}

impl<D: WritableDevice> WritableDevice for Cache<D> {
    fn write(&mut self, place: u32, piece: &[u8]) -> Result<(), DeviceFault>
        ensures written { Written (meaning_over D.Device.meaning self.old) place piece.now result (meaning_over D.Device.meaning self.new) }
        ensures pages { pages_of self.new ≡ after_write (refusal (meaning_over D.Device.meaning self.old) place (length piece.now)) (spent (meaning_over D.Device.meaning self.old).left) (meaning_over D.Device.meaning self.new) (place / 512) (pages_of self.old) }
    {
        if !is_within(self.below.size(), place, piece.len()) {
            return Err(DeviceFault::Range);
        }
        self.below.state(place / 512)?;
        self.write_through(place, piece)
    }
}
