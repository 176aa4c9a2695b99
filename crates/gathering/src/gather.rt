//! All the data of a key, in memory of their own.

ghost use Rattle.std.specs.Prelude.{◌≡◌, Ok};
ghost use Rattle.lookup.specs.Starts.{Start};
ghost use Rattle.gathering.specs.declared.gather.GatherFault.TheVariants.{File, Memory};
ghost use Rattle.gathering.specs.Gathers.{FetchesAll, Gathers, GathersRecords, IsMemory};

use device::device::Device;
use faults::file::FileFault;
use file::extents::Extent;
use lookup::calls::{fetch, next, start};
use lookup::cursors::{Cursor, Found};
use std::alloc::{AllocError, AllocFailed, Global};

/// Why a lookup gave no data.
#[derive(Clone, Copy, PartialEq, Eq, Debug)]
pub enum GatherFault {
    /// A call of the lookup was refused.
    File(FileFault),
    /// There is not memory enough for the data.
    Memory(AllocError),
}

impl From<FileFault> for GatherFault {
    ghost from_gives = { λ f g. g ≡ File f };

    fn from(fault: FileFault) -> GatherFault {
        GatherFault::File(fault)
    }
}

impl From<AllocError> for GatherFault {
    ghost from_gives = { λ e g. g ≡ Memory e };

    fn from(error: AllocError) -> GatherFault {
        GatherFault::Memory(error)
    }
}

impl<T: Drop> From<AllocFailed<T>> for GatherFault {
    ghost from_gives = { λ _ g. IsMemory g };

    fn from(error: AllocFailed<T>) -> GatherFault {
        GatherFault::Memory(AllocError::from(error))
    }
}

/// Fetches the whole of some data found.
fn fetch_all<D: Device>(
    alloc: Global,
    d: &mut D,
    extent: Extent,
    found: Found,
) -> Result<Vec<u8>, GatherFault>
    ensures fetched { FetchesAll (D.Device.meaning d.old) extent found result }
    ensures same { D.Device.meaning d.new ≡ D.Device.meaning d.old }
{
    let mut data = vec![in alloc; 0u8; found.len as usize]?;
    fetch(d, extent, found, 0, &mut data)?;
    Ok(data)
}

/// The data that the nexts from a cursor on find, up to the end.
// By the public calls, of which the law of lookups speaks; so the key is hashed again at each next.
fn gather_from<D: Device>(
    alloc: Global,
    d: &mut D,
    extent: Extent,
    key: &[u8],
    cursor: Cursor,
) -> Result<Vec<Vec<u8>>, GatherFault>
    ensures answer { Start (D.Device.meaning d.old) extent key.now (Ok cursor) → Gathers (D.Device.meaning d.old) extent key.now result }
    ensures same { D.Device.meaning d.new ≡ D.Device.meaning d.old }
{
    let mut at = cursor;
    let mut all = Vec::new(alloc);
    while let Some(found) = next(d, &mut at, key)? {
        all.push(fetch_all(alloc, d, extent, found)?)?;
    }
    Ok(all)
}

/// All the data of a key in the file of an extent, in file order: a start, and nexts up to the end, with a fetch of all data found.
pub fn gather<D: Device>(
    alloc: Global,
    d: &mut D,
    extent: Extent,
    key: &[u8],
) -> Result<Vec<Vec<u8>>, GatherFault>
    ensures answer { Gathers (D.Device.meaning d.old) extent key.now result }
    ensures law { GathersRecords (D.Device.meaning d.old) extent key.now result }
    ensures same { D.Device.meaning d.new ≡ D.Device.meaning d.old }
{
    let cursor = start(d, extent, key)?;
    gather_from(alloc, d, extent, key, cursor)
}
