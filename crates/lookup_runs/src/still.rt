//! Memory for reading does not change.

ghost use Rattle.std.specs.Prelude.{ℕ};

use crate::changing::Changing;
use file::extents::Extent;
use memory::reading::ReadMemory;

impl<'a> Changing for ReadMemory<'a> {
    fn change(&mut self, _extent: Extent) {}
}
