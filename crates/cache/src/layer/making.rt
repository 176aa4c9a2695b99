//! The maker of a cache, marking below it, and the way back to the device below.

ghost use Rattle.std.specs.Prelude.{◌≡◌, ℕ, ◌<◌, None};
ghost use Rattle.marks.specs.Marks.{Marking};
ghost use Rattle.marks.specs.Layers.{marks_of, meaning_over as marked_meaning};
ghost use Rattle.cache.specs.Pages.{page_at};
ghost use Rattle.cache.specs.Caches.{pages_of, below_of, meaning_over};

use super::Cache;
use crate::pages::Pages;
use device::device::Device;
use marks::fault::MarkFault;
use marks::layer::Marked;

impl<D: Device> Cache<D> {
    /// A cache over a device, with every page empty.
    pub fn new(below: D) -> Cache<D>
        ensures meaning { meaning_over D.Device.meaning result ≡ D.Device.meaning below }
        ensures below { below_of result ≡ below }
        ensures pages { (k : ℕ) → k < 8 → (page_at (pages_of result) k).sector ≡ None }
    {
        Cache {
            below,
            pages: Pages::new(),
        }
    }

    /// The device below.
    pub fn into_below(self) -> D
        ensures meaning { D.Device.meaning result ≡ meaning_over D.Device.meaning self }
        ensures below { result ≡ below_of self }
    {
        let Cache { below, pages: _ } = self;
        below
    }
}

impl<D: Device> Cache<Marked<D>> {
    /// Marks a sector of the bad-sector layer below, as that layer does. The pages stay, since no byte changes.
    pub fn mark(&mut self, sector: u32) -> Result<(), MarkFault>
        ensures marking { Marking (marks_of (below_of self.old)) (meaning_over (marked_meaning D.Device.meaning) self.old) sector result (marks_of (below_of self.new)) (meaning_over (marked_meaning D.Device.meaning) self.new) }
        ensures pages { pages_of self.new ≡ pages_of self.old }
    {
        self.below.mark(sector)
    }
}
