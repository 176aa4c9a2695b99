//! Inner: a part of the data found.

ghost use Rattle.std.specs.Prelude.{◌≡◌, ℕ, ◌+◌, ◌-◌, ◌*◌, ◌/◌, ◌%◌, ◌^◌, ◌<◌, ◌≤◌};
ghost use Rattle.lookup.specs.Fetches.{Takes};
ghost use Rattle.lookup.specs.OneAnswer.{OnlyTakes};

use device::device::Device;
use faults::file::{FileFault, add_place};
use file::extents::Extent;
use file::reading::{is_on, read_part};

/// Fills a buffer from a place of the file on, with bytes that lie before the place `end`.
pub(crate) fn take_part<D: Device>(
    d: &mut D,
    extent: Extent,
    from: u64,
    end: u64,
    buffer: &mut [u8],
) -> Result<(), FileFault>
    requires bound { from < 2 ^ 33 }
    ensures answer { Takes (D.Device.meaning d.old) extent from end buffer.old result buffer.new }
    ensures only { OnlyTakes (D.Device.meaning d.old) extent from end buffer.old result buffer.new }
    ensures same { D.Device.meaning d.new ≡ D.Device.meaning d.old }
{
    if !is_on(d, extent) {
        return Err(FileFault::Range);
    }
    let past = from + buffer.len() as u64;
    if past > end || past > extent.len as u64 {
        return Err(FileFault::Range);
    }
    add_place(read_part(d, extent.start + from as u32, buffer), 256, from)?;
    Ok(())
}
