//! A shelf at rest.

ghost use Rattle.shelf.specs.States.{LiveExtent, live_of, Begun};

use crate::states::{Draft, Shelf};
use file::extents::Extent;

impl Shelf {
    /// The extent of the live file.
    pub fn live(&self) -> Extent
        ensures { LiveExtent (live_of self.now) result }
    {
        self.live.extent()
    }

    /// A new draft, in the area beside the live one, to which records can be added.
    pub fn begin(self) -> Draft
        ensures { Begun self result }
    {
        Draft {
            live: self.live,
            position: 2048,
            records: 0,
        }
    }
}
