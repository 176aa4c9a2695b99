//! Inner: an entry put into its table on the device.

ghost use Rattle.std.specs.Prelude.{◌≡◌, ◌+◌, ◌*◌, ◌≤◌};
ghost use Rattle.byte_lists.specs.Bytes.{word_at};
ghost use Rattle.file.specs.Ranges.{AllRead};
ghost use Rattle.building.specs.Entries.{slot_of};
ghost use Rattle.building.specs.Builds.{HasRoom, Nearest, PutsEntry};

use crate::entries::Entry;
use byte_lists::slices::two_words;
use cdb::tables::slot_away;
use device::device::{Device, WritableDevice};
use faults::device::DeviceFault;
use file::reading::read_words;
use writing::pieces::write_all;

// Place and length of a table stay two numbers, for the same reason as in `closing`.

/// The record's place that the slot at `p` holds.
fn place_in<D: Device>(d: &mut D, p: u32) -> u32
    requires within { p + 8 ≤ 512 * (D.Device.meaning d.old).sectors }
    requires reads { AllRead (D.Device.meaning d.old) p 8 }
    ensures word { result ≡ word_at (D.Device.meaning d.old).bytes (p + 4) }
    ensures same { D.Device.meaning d.new ≡ D.Device.meaning d.old }
{
    // Nothing here is refused: all these bytes can be read.
    read_words(d, p).map_or(0, |words| words.second)
}

/// The place of the empty slot at the smallest distance from the home of a hash, in the table of `len` slots at `pos`.
fn find_empty<D: Device>(d: &mut D, pos: u32, len: u32, hash: u32) -> u32
    requires within { pos + 8 * len ≤ 512 * (D.Device.meaning d.old).sectors }
    requires reads { AllRead (D.Device.meaning d.old) pos (8 * len) }
    requires room { HasRoom (D.Device.meaning d.old).bytes pos len hash }
    ensures nearest { Nearest (D.Device.meaning d.old).bytes pos len hash result }
    ensures same { D.Device.meaning d.new ≡ D.Device.meaning d.old }
{
    for distance in 0..len {
        let slot = pos + 8 * slot_away(len, hash, distance);
        if place_in(d, slot) == 0 {
            return slot;
        }
    }
    // The table has an empty slot.
    unreachable!()
}

/// Puts an entry into the table of `len` slots at `pos`.
pub(crate) fn put_entry<D: WritableDevice>(
    d: &mut D,
    pos: u32,
    len: u32,
    entry: Entry,
) -> Result<(), DeviceFault>
    requires within { pos + 8 * len ≤ 512 * (D.Device.meaning d.old).sectors }
    requires reads { AllRead (D.Device.meaning d.old) pos (8 * len) }
    requires room { HasRoom (D.Device.meaning d.old).bytes pos len entry.hash }
    ensures puts { PutsEntry (D.Device.meaning d.old) pos len (slot_of entry) result (D.Device.meaning d.new) }
{
    let p = find_empty(d, pos, len, entry.hash);
    write_all(d, p, &two_words(entry.hash, entry.place))
}
