//! A draft with its tables and its header.

ghost use Rattle.std.specs.Prelude.{◌≡◌};
ghost use Rattle.areas.specs.Geometry.{other};
ghost use Rattle.shelf.specs.States.{LiveExtent, live_of, live_at_finished, file_start};

use crate::states::{Finished, Shelf};
use areas::roots::Root;
use file::extents::Extent;

impl Finished {
    /// The extent of the live file.
    pub fn live(&self) -> Extent
        ensures { LiveExtent (live_at_finished self.now) result }
    {
        self.live.extent()
    }

    /// The extent of the draft's file.
    pub(crate) fn file(&self) -> Extent
        ensures start { result.start ≡ file_start (live_at_finished self.now) }
        ensures len { result.len ≡ self.now.made }
    {
        Extent {
            start: self.live.file_start(),
            len: self.made,
        }
    }

    /// The root that names the draft's file.
    pub(crate) fn next_root(&self) -> Root
        ensures area { result.area ≡ other self.now.live.root.area }
        ensures len { result.len ≡ self.now.made }
    {
        Root {
            area: self.live.root.area.other(),
            len: self.made,
        }
    }

    /// Turns the draft into the shelf; nothing is written.
    pub fn abandon(self) -> Shelf
        ensures { live_of result ≡ live_at_finished self }
    {
        Shelf { live: self.live }
    }
}
