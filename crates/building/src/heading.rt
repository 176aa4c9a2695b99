//! Inner: a header written on the device, and the file without records, which is a header. The callers prove that they lie on the device.

ghost use Rattle.std.specs.Prelude.{ℕ, ◌+◌, ◌*◌, ◌^◌, ◌<◌, ◌≤◌};
ghost use Rattle.writing.specs.Runs.{Runs};
ghost use Rattle.building.specs.Builds.{table_in, headed};
ghost use Rattle.building.specs.Empty.{WritesEmpty};

use crate::layout::Table;
use byte_lists::slices::two_words;
use device::device::{Device, WritableDevice};
use faults::device::DeviceFault;
use faults::file::{FileFault, add_place};
use writing::pieces::write_all;

/// Writes the header of the file at `base`, whose records end at `end` of the file.
pub(crate) fn write_header<D: WritableDevice>(
    d: &mut D,
    base: u32,
    end: u32,
    tables: &[Table; 256],
) -> Result<(), DeviceFault>
    requires within { base + 2048 ≤ 512 * (D.Device.meaning d.old).sectors }
    requires fits { (t : ℕ) → t < 256 → end + (table_in tables.now t).offset < 2 ^ 32 }
    ensures runs { Runs (D.Device.meaning d.old) base (headed end tables.now 256) result (D.Device.meaning d.new) }
{
    for (t, table) in tables.iter().enumerate() {
        let words = two_words(end + table.offset, table.slots);
        write_all(d, base + 8 * t as u32, &words)?;
    }
    Ok(())
}

/// Writes the file without records at `base`.
pub fn write_empty<D: WritableDevice>(d: &mut D, base: u32) -> Result<(), FileFault>
    requires within { base + 2048 ≤ 512 * (D.Device.meaning d.old).sectors }
    ensures writes { WritesEmpty (D.Device.meaning d.old) base result (D.Device.meaning d.new) }
{
    add_place(write_header(d, base, 2048, &[Table::EMPTY; 256]), 256, 0)?;
    Ok(())
}
