//! Inner: tables built on the device.

ghost use Rattle.std.specs.Prelude.{◌+◌, ◌*◌, ◌≤◌, [], length};
ghost use Rattle.building.specs.Builds.{TablesOf, FilledWith, FillsAll};
ghost use Rattle.building.specs.Closes.{Builds};

use crate::entries::Entry;
use crate::layout::Table;
use crate::placing::put_entry;
use device::device::{Device, WritableDevice};
use faults::device::DeviceFault;
use writing::zeros::write_zeros;

/// Puts the entries into their tables, which are empty.
fn fill<D: WritableDevice>(
    d: &mut D,
    from: u32,
    entries: &[Entry],
    tables: &[Table; 256],
) -> Result<(), DeviceFault>
    requires within { from + 16 * length entries.now ≤ 512 * (D.Device.meaning d.old).sectors }
    requires tables { TablesOf tables.now entries.now }
    requires empty { FilledWith (D.Device.meaning d.old) from entries.now [] (D.Device.meaning d.old) }
    ensures fills { FillsAll (D.Device.meaning d.old) from entries.now result (D.Device.meaning d.new) }
{
    for &entry in entries {
        let table = tables[entry.table()];
        put_entry(d, from + table.offset, table.slots, entry)?;
    }
    Ok(())
}

/// Builds the tables of the entries, of which the first starts at `from`: zero bytes first, then the entries one by one.
pub(crate) fn build<D: WritableDevice>(
    d: &mut D,
    from: u32,
    entries: &[Entry],
    tables: &[Table; 256],
) -> Result<(), DeviceFault>
    requires within { from + 16 * length entries.now ≤ 512 * (D.Device.meaning d.old).sectors }
    requires tables { TablesOf tables.now entries.now }
    ensures builds { Builds (D.Device.meaning d.old) from entries.now result (D.Device.meaning d.new) }
{
    write_zeros(d, from, 16 * entries.len())?;
    fill(d, from, entries, tables)
}
