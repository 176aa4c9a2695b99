//! Inner: a record written to a device. The callers prove that it lies on the device.

ghost use Rattle.std.specs.Prelude.{◌+◌, ◌*◌, ◌≤◌, ◌++◌, length};
ghost use Rattle.cdb.specs.Records.{record_bytes};
ghost use Rattle.writing.specs.Runs.{Runs};
ghost use Rattle.writing.specs.Records.{WritesRecord};

use crate::pieces::write_all;
use byte_lists::slices::two_words;
use device::device::{Device, WritableDevice};
use faults::device::DeviceFault;
use faults::file::{FileFault, add_place};

/// Writes two runs of bytes that abut.
fn write_both<D: WritableDevice>(
    d: &mut D,
    place: u32,
    first: &[u8],
    second: &[u8],
) -> Result<(), DeviceFault>
    requires within { place + (length first.now + length second.now) ≤ 512 * (D.Device.meaning d.old).sectors }
    ensures runs { Runs (D.Device.meaning d.old) place (first.now ++ second.now) result (D.Device.meaning d.new) }
{
    write_all(d, place, first)?;
    write_all(d, place + first.len() as u32, second)
}

/// The lengths of key and data, the key, the data.
// Key and data stay two slices: a struct would be made at each call and taken apart for the three writes.
fn write_parts<D: WritableDevice>(
    d: &mut D,
    place: u32,
    key: &[u8],
    value: &[u8],
) -> Result<(), DeviceFault>
    requires within { place + (8 + (length key.now + length value.now)) ≤ 512 * (D.Device.meaning d.old).sectors }
    ensures runs { Runs (D.Device.meaning d.old) place (record_bytes (record { key = key.entry.now; data' = value.now })) result (D.Device.meaning d.new) }
{
    write_all(d, place, &two_words(key.len() as u32, value.len() as u32))?;
    write_both(d, place + 8, key, value)
}

/// Writes a record at `position` of the file at `base`.
pub fn write_record<D: WritableDevice>(
    d: &mut D,
    base: u32,
    position: u32,
    key: &[u8],
    value: &[u8],
) -> Result<(), FileFault>
    requires within { base + position + (8 + (length key.now + length value.now)) ≤ 512 * (D.Device.meaning d.old).sectors }
    ensures writes { WritesRecord (D.Device.meaning d.old) base position (record { key = key.entry.now; data' = value.now }) result (D.Device.meaning d.new) }
{
    add_place(
        write_parts(d, base + position, key, value),
        256,
        position as u64,
    )?;
    Ok(())
}
