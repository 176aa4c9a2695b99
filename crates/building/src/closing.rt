//! Inner: the tables and the header of a file written on the device. The callers prove that it lies on the device.

ghost use Rattle.std.specs.Prelude.{◌+◌, ◌*◌, ◌≤◌, length};
ghost use Rattle.building.specs.Closes.{Closes};

use crate::entries::Entry;
use crate::filling::build;
use crate::heading::write_header;
use crate::layout::tables_of;
use device::device::{Device, WritableDevice};
use faults::file::{FileFault, add_place};

// Where the file starts and where its records end stay two numbers: a struct that says what is asked of them would hold the device.

/// Writes the tables of the entries behind the records of the file at `base`, which end at `end` of the file, then the header.
pub fn close<D: WritableDevice>(
    d: &mut D,
    base: u32,
    end: u32,
    entries: &[Entry],
) -> Result<(), FileFault>
    requires within { base + (end + 16 * length entries.now) ≤ 512 * (D.Device.meaning d.old).sectors }
    requires past { 2048 ≤ end }
    ensures closes { Closes (D.Device.meaning d.old) base end entries.now result (D.Device.meaning d.new) }
{
    let tables = tables_of(entries);
    add_place(build(d, base + end, entries, &tables), 256, end as u64)?;
    add_place(write_header(d, base, end, &tables), 256, 0)?;
    Ok(())
}
