//! The data of a key by their number: a start, and nexts up to that number.

ghost use Rattle.std.specs.Prelude.{◌≡◌, ℕ, ◌+◌, ◌-◌, ◌*◌, ◌/◌, ◌%◌, ◌^◌, ◌<◌, ◌≤◌};
ghost use Rattle.lookup_nth.specs.Nths.{NthFrom, Nth, OnlyNth, NthGivesRecord, TwoDataOfOneKey};

use device::device::Device;
use faults::file::FileFault;
use file::extents::Extent;
use lookup::advancing::advance;
use lookup::cursors::{Cursor, Found};
use lookup::keys::HashedKey;
use lookup::starting::start_hashed;

/// What the nexts from a cursor on answer at last.
fn nth_from<D: Device>(
    d: &mut D,
    cursor: Cursor,
    key: HashedKey<'_>,
    n: u32,
) -> Result<Option<Found>, FileFault>
    ensures nth { NthFrom (D.Device.meaning d.old) key.entry.bytes.now cursor n result }
    ensures same { D.Device.meaning d.new ≡ D.Device.meaning d.old }
{
    let mut at = cursor;
    let mut found = None;
    for _ in 0..=n {
        let step = advance(d, at, key)?;
        let Some(data) = step.found else {
            return Ok(None);
        };
        found = Some(data);
        at.probed = step.probed;
    }
    Ok(found)
}

/// The place and the length of the data of record `n` of a key, counted from 0 in file order, or none where the key has no
/// such record: refuses what start and next refuse.
// Device and extent stay parameters, as in `lookup::calls`.
pub fn nth<D: Device>(
    d: &mut D,
    extent: Extent,
    key: &[u8],
    n: u32,
) -> Result<Option<Found>, FileFault>
    ensures answer { Nth (D.Device.meaning d.old) extent key.now n result }
    ensures only { OnlyNth (D.Device.meaning d.old) extent key.now n result }
    ensures law { NthGivesRecord (D.Device.meaning d.old) extent key.now n result }
    ensures sample { TwoDataOfOneKey }
    ensures same { D.Device.meaning d.new ≡ D.Device.meaning d.old }
{
    let key = HashedKey::new(key);
    let cursor = start_hashed(d, extent, key)?;
    nth_from(d, cursor, key, n)
}
