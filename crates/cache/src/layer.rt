//! A page cache over any device.

ghost use Rattle.std.specs.Prelude.{◌≡◌, ◌/◌, length};
ghost use Rattle.byte_lists.specs.Bytes.{part};
ghost use Rattle.device.specs.Meanings.{refusal, state as state_of, answer, filled};
ghost use Rattle.cache.specs.Pages.{after_read};

mod making;
mod paging;
mod writing;

use crate::pages::Pages;
use device::checks::is_within;
use device::device::Device;
use faults::device::DeviceFault;
use std::marker::Model;

/// A cache of eight pages over a device.
#[derive(Drop)]
pub struct Cache<D: Device> {
    below: D,
    pages: Pages,
}

impl<D: Device> Model for Cache<D> {
    ghost use Rattle.std.specs.Prelude.{List};
    ghost use Rattle.cache.specs.declared.pages.Page.{Page};
    ghost use Rattle.cache.specs.Pages.{AllEqual};

    ghost Value = { D × List Page };

    ghost view = { λ c. (c.below, c.pages.table) };

    ghost invariant = { λ c. AllEqual (D.Device.meaning c.below) c.pages.table };
}

impl<D: Device> Device for Cache<D> {
    ghost use Rattle.cache.specs.Caches.{pages_of, below_of, meaning_over};

    ghost meaning = { meaning_over D.Device.meaning };

    ghost whole = { λ d. D.Device.whole (below_of d) };

    fn size(&self) -> u32 {
        self.below.size()
    }

    // A method's own clauses replace those of the trait, so these stand here again.
    fn state(&mut self, sector: u32) -> Result<(), DeviceFault>
        ensures answer { result ≡ answer (state_of (meaning_over D.Device.meaning self.old) sector) }
        ensures same { meaning_over D.Device.meaning self.new ≡ meaning_over D.Device.meaning self.old }
        ensures pages { pages_of self.new ≡ pages_of self.old }
    {
        self.below.state(sector)
    }

    fn read(&mut self, place: u32, piece: &mut [u8]) -> Result<(), DeviceFault>
        ensures answer { result ≡ answer (refusal (meaning_over D.Device.meaning self.old) place (length piece.old)) }
        ensures piece { piece.new ≡ filled (refusal (meaning_over D.Device.meaning self.old) place (length piece.old)) (part (meaning_over D.Device.meaning self.old).bytes place (length piece.old)) piece.old }
        ensures same { meaning_over D.Device.meaning self.new ≡ meaning_over D.Device.meaning self.old }
        ensures pages { pages_of self.new ≡ after_read (refusal (meaning_over D.Device.meaning self.old) place (length piece.old)) (meaning_over D.Device.meaning self.old) (place / 512) (pages_of self.old) }
    {
        let sector = place / 512;
        if sector == 0 {
            return self.below.read(place, piece);
        }
        if !is_within(self.below.size(), place, piece.len()) {
            return Err(DeviceFault::Range);
        }
        self.bring(sector)?;
        self.copy_out(place, piece);
        Ok(())
    }
}
