//! A draft that is open for adding.

ghost use Rattle.std.specs.Prelude.{◌≡◌};
ghost use Rattle.shelf.specs.States.{LiveExtent, live_of, live_at_draft};

use crate::states::{Draft, Shelf};
use file::extents::Extent;

impl Draft {
    /// The extent of the live file.
    pub fn live(&self) -> Extent
        ensures { LiveExtent (live_at_draft self.now) result }
    {
        self.live.extent()
    }

    /// Turns the draft into the shelf; nothing is written.
    pub fn abandon(self) -> Shelf
        ensures { live_of result ≡ live_at_draft self }
    {
        Shelf { live: self.live }
    }
}
