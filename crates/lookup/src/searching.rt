//! Inner: a lookup under way.

ghost use Rattle.std.specs.Prelude.{◌+◌, ◌*◌, ◌≤◌};
ghost use Rattle.file.specs.Extents.{On};

mod comparing;
mod probing;
mod walking;

use crate::cursors::Cursor;
use device::device::Device;

// That a call leaves the lookup as it was is a clause of each method: reading takes the device by `&mut`.

/// A lookup under way: the device that is lent to it, on which its file lies, its cursor, and its key.
#[derive(Drop)]
pub(crate) struct Search<'d, 'k, D: Device> {
    pub(crate) device: &'d mut D,
    pub(crate) cursor: Cursor,
    pub(crate) key: &'k [u8],
    ghost on: { On (D.Device.meaning device.now) cursor.extent },
}
