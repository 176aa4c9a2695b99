//! The calls of a lookup: start, next and fetch.

ghost use Rattle.std.specs.Prelude.{◌≡◌, ℕ, ◌+◌, ◌-◌, ◌*◌, ◌/◌, ◌%◌, ◌^◌, ◌<◌, ◌≤◌, OnErr};
ghost use Rattle.lookup.specs.Starts.{Start};
ghost use Rattle.lookup.specs.Nexts.{Next};
ghost use Rattle.lookup.specs.Fetches.{Fetch};
ghost use Rattle.lookup.specs.OneAnswer.{OnlyStart, OnlyNext, OnlyFetch};

use crate::advancing::advance;
use crate::cursors::{Cursor, Found};
use crate::keys::HashedKey;
use crate::starting::start_hashed;
use crate::taking::take_part;
use device::device::Device;
use faults::file::FileFault;
use file::extents::Extent;

// Device, extent and key stay parameters: a caller keeps a cursor across other calls on the device.

/// A cursor for the lookup of a key in the file of an extent: refuses 11, 1, then what the device refuses at the header entry.
pub fn start<D: Device>(d: &mut D, extent: Extent, key: &[u8]) -> Result<Cursor, FileFault>
    ensures answer { Start (D.Device.meaning d.old) extent key.now result }
    ensures only { OnlyStart (D.Device.meaning d.old) extent key.now result }
    ensures same { D.Device.meaning d.new ≡ D.Device.meaning d.old }
{
    start_hashed(d, extent, HashedKey::new(key))
}

/// The place and the length of the data of the next record of the key, or none after the last: refuses 11, 26, then 9 and
/// what the device refuses, and leaves the cursor then.
pub fn next<D: Device>(
    d: &mut D,
    cursor: &mut Cursor,
    key: &[u8],
) -> Result<Option<Found>, FileFault>
    ensures answer { Next (D.Device.meaning d.old) cursor.old key.now result cursor.new }
    ensures only { OnlyNext (D.Device.meaning d.old) cursor.old key.now result cursor.new }
    ensures left { OnErr result (cursor.new ≡ cursor.old) }
    ensures same { D.Device.meaning d.new ≡ D.Device.meaning d.old }
{
    let step = advance(d, *cursor, HashedKey::new(key))?;
    cursor.probed = step.probed;
    Ok(step.found)
}

/// Fills a buffer with the part of the data found that begins at an offset: refuses 11, then what the device refuses, and at
/// a bad sector only the bytes before that sector are filled.
pub fn fetch<D: Device>(
    d: &mut D,
    extent: Extent,
    found: Found,
    offset: u32,
    buffer: &mut [u8],
) -> Result<(), FileFault>
    ensures answer { Fetch (D.Device.meaning d.old) extent found offset buffer.old result buffer.new }
    ensures only { OnlyFetch (D.Device.meaning d.old) extent found offset buffer.old result buffer.new }
    ensures same { D.Device.meaning d.new ≡ D.Device.meaning d.old }
{
    let from = found.place as u64 + offset as u64;
    let end = found.place as u64 + found.len as u64;
    take_part(d, extent, from, end, buffer)
}
