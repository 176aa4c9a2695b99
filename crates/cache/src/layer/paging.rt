//! Inner: how a cache uses its pages.

ghost use Rattle.std.specs.Prelude.{◌≡◌, ◌+◌, ◌*◌, ◌/◌, ◌%◌, ◌<◌, ◌≤◌, true, false, length, is_ok, Some, slice_set};
ghost use Rattle.byte_lists.specs.Bytes.{part};
ghost use Rattle.device.specs.Meanings.{answer, refuses};
ghost use Rattle.cache.specs.Pages.{page_of, page_for, kept, after_read};
ghost use Rattle.cache.specs.Caches.{pages_of, meaning_over};

use super::Cache;
use device::device::Device;
use faults::device::DeviceFault;

impl<D: Device> Cache<D> {
    /// Brings a sector into its page, unless it is there. A hit asks for the sector's state too.
    pub(super) fn bring(&mut self, sector: u32) -> Result<(), DeviceFault>
        requires within { (0 < sector) × ((sector < (meaning_over D.Device.meaning self.old).sectors) × (sector < 8388607)) }
        ensures answer { result ≡ answer (refuses (meaning_over D.Device.meaning self.old) sector) }
        ensures same { meaning_over D.Device.meaning self.new ≡ meaning_over D.Device.meaning self.old }
        ensures pages { pages_of self.new ≡ after_read (refuses (meaning_over D.Device.meaning self.old) sector) (meaning_over D.Device.meaning self.old) sector (pages_of self.old) }
        ensures page { is_ok result ≡ true → (page_of (pages_of self.new) sector).bytes ≡ part (meaning_over D.Device.meaning self.new).bytes (512 * sector) 512 }
    {
        self.below.state(sector)?;
        if self.pages.keeps(sector) {
            return Ok(());
        }
        self.fill(sector)
    }

    /// Fills the page of a sector that can be read.
    fn fill(&mut self, sector: u32) -> Result<(), DeviceFault>
        requires within { (0 < sector) × ((sector < (meaning_over D.Device.meaning self.old).sectors) × (sector < 8388607)) }
        ensures answer { result ≡ answer (refuses (meaning_over D.Device.meaning self.old) sector) }
        ensures same { meaning_over D.Device.meaning self.new ≡ meaning_over D.Device.meaning self.old }
        ensures pages { (is_ok result ≡ true → pages_of self.new ≡ slice_set (pages_of self.old) (sector % 8) (page_for (meaning_over D.Device.meaning self.old) sector)) × (is_ok result ≡ false → pages_of self.new ≡ pages_of self.old) }
        ensures page { is_ok result ≡ true → (page_of (pages_of self.new) sector).bytes ≡ part (meaning_over D.Device.meaning self.new).bytes (512 * sector) 512 }
    {
        let mut bytes = [0; 512];
        self.below.read(512 * sector, &mut bytes)?;
        self.pages.fill(sector, bytes);
        Ok(())
    }

    /// Fills a piece from its sector's page.
    pub(super) fn copy_out(&self, place: u32, piece: &mut [u8])
        requires inner { place % 512 + length piece.old ≤ 512 }
        requires page { (page_of (pages_of self.now) (place / 512)).bytes ≡ part (meaning_over D.Device.meaning self.now).bytes (512 * (place / 512)) 512 }
        ensures { piece.new ≡ part (meaning_over D.Device.meaning self.now).bytes place (length piece.old) }
    {
        self.pages.copy_out(place, piece);
    }
}
