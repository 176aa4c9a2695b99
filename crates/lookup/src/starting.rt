//! Inner: the start of a lookup, with a key whose hash is known.

ghost use Rattle.std.specs.Prelude.{◌≡◌, ℕ, ◌+◌, ◌-◌, ◌*◌, ◌/◌, ◌%◌, ◌^◌, ◌<◌, ◌≤◌};
ghost use Rattle.lookup.specs.Starts.{Start};
ghost use Rattle.lookup.specs.OneAnswer.{OnlyStart};

use crate::cursors::Cursor;
use crate::keys::HashedKey;
use device::device::Device;
use faults::file::{FileFault, add_place};
use file::extents::Extent;
use file::reading::{is_on, read_words};

/// A cursor for the lookup of a key.
pub fn start_hashed<D: Device>(
    d: &mut D,
    extent: Extent,
    key: HashedKey<'_>,
) -> Result<Cursor, FileFault>
    ensures answer { Start (D.Device.meaning d.old) extent key.entry.bytes.now result }
    ensures only { OnlyStart (D.Device.meaning d.old) extent key.entry.bytes.now result }
    ensures same { D.Device.meaning d.new ≡ D.Device.meaning d.old }
{
    if !is_on(d, extent) {
        return Err(FileFault::Range);
    }
    if extent.len < 2048 {
        return Err(FileFault::Short(extent.len));
    }
    let table = key.hash % 256;
    let place = 8 * table;
    let words = add_place(read_words(d, extent.start + place), table, place as u64)?;
    Ok(Cursor {
        extent,
        hash: key.hash,
        position: words.first,
        slots: words.second,
        probed: 0,
    })
}
