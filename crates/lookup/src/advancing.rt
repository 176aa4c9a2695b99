//! Inner: one step of a lookup, with a key whose hash is known.

ghost use Rattle.std.specs.Prelude.{◌≡◌};
ghost use Rattle.lookup.specs.Nexts.{Advances};
ghost use Rattle.lookup.specs.OneAnswer.{OnlyAdvances};

use crate::cursors::{Cursor, Step};
use crate::keys::HashedKey;
use crate::searching::Search;
use device::device::Device;
use faults::file::FileFault;
use file::reading::is_on;

/// What next answers, and how many slots are probed then.
pub fn advance<D: Device>(d: &mut D, cursor: Cursor, key: HashedKey<'_>) -> Result<Step, FileFault>
    ensures answer { Advances (D.Device.meaning d.old) cursor key.entry.bytes.now result }
    ensures only { OnlyAdvances (D.Device.meaning d.old) cursor key.entry.bytes.now result }
    ensures same { D.Device.meaning d.new ≡ D.Device.meaning d.old }
{
    if !is_on(d, cursor.extent) {
        return Err(FileFault::Range);
    }
    if key.hash != cursor.hash {
        return Err(FileFault::OtherKey);
    }
    let mut search = Search {
        device: d,
        cursor,
        key: key.bytes,
    };
    search.walk()
}
