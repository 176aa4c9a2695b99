//! Inner: the live file, which every state of a shelf keeps.

ghost use Rattle.std.specs.Prelude.{◌≡◌, ◌+◌, ◌*◌, ◌<◌, ◌≤◌};
ghost use Rattle.areas.specs.Geometry.{area_size};

use areas::places::{area_size, area_start};
use areas::roots::Root;
use file::extents::Extent;

/// The live file: the sectors of its device, and the root that names it.
#[derive(Clone, Copy)]
pub struct LiveFile {
    pub(crate) sectors: u32,
    pub(crate) root: Root,
    ghost few: { sectors ≤ 8388607 },
    ghost long: { 2048 ≤ root.len },
    ghost fits: { root.len ≤ area_size sectors root.area },
}

impl LiveFile {
    ghost use Rattle.shelf.specs.States.{LiveExtent, live_in, file_start, file_room};

    /// Its extent.
    pub(crate) fn extent(self) -> Extent
        ensures { LiveExtent (live_in self) result }
    {
        Extent {
            start: area_start(self.sectors, self.root.area),
            len: self.root.len,
        }
    }

    /// Where the file of a draft beside it starts.
    pub(crate) fn file_start(self) -> u32
        ensures is { result ≡ file_start (live_in self) }
        ensures on { 0 < file_room (live_in self) → result + file_room (live_in self) ≤ 512 * self.sectors }
    {
        area_start(self.sectors, self.root.area.other())
    }

    /// How many bytes the file of a draft beside it may have.
    pub(crate) fn file_room(self) -> u32
        ensures { result ≡ file_room (live_in self) }
    {
        area_size(self.sectors)
    }
}
