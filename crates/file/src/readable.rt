//! Inner: whether a file can be read.

ghost use Rattle.std.specs.Prelude.{◌≡◌, ℕ, ◌+◌, ◌-◌, ◌*◌, ◌/◌, ◌%◌, ◌^◌, ◌<◌, ◌≤◌, true, false, MatchResult};
ghost use Rattle.faults.specs.declared.device.DeviceFault.TheVariants.{Power};
ghost use Rattle.file.specs.Extents.{Ready, Unreadable};
ghost use Rattle.file.specs.Ranges.{SectorsRead, FirstSector};

use crate::extents::Extent;
use crate::reading::is_on;
use device::device::Device;
use faults::device::DeviceFault;
use faults::file::{FileFault, add_place};

/// Refuses an extent whose file cannot be read.
// Device and extent stay parameters: only then is there a `ReadableFile` of the two.
pub fn check_readable<D: Device>(d: &mut D, extent: Extent) -> Result<(), FileFault>
    ensures answer { MatchResult result (λ _. Ready (D.Device.meaning d.old) extent) (λ f. Unreadable (D.Device.meaning d.old) extent f) }
    ensures same { D.Device.meaning d.new ≡ D.Device.meaning d.old }
{
    if !is_on(d, extent) {
        return Err(FileFault::Range);
    }
    add_place(check_power(d), 256, 0)?;
    if extent.len == 0 {
        return Ok(());
    }
    let first = extent.start / 512;
    let last = (extent.start + extent.len - 1) / 512;
    add_place(check_sectors(d, first, last + 1), 256, 0)?;
    Ok(())
}

/// Refuses a device without power.
fn check_power<D: Device>(d: &mut D) -> Result<(), DeviceFault>
    ensures answer { MatchResult result (λ _. (D.Device.meaning d.old).power ≡ true) (λ f. (f ≡ Power) × ((D.Device.meaning d.old).power ≡ false)) }
    ensures same { D.Device.meaning d.new ≡ D.Device.meaning d.old }
{
    match d.state(0) {
        Err(DeviceFault::Power) => Err(DeviceFault::Power),
        _ => Ok(()),
    }
}

/// Refuses the first of some sectors that cannot be read.
fn check_sectors<D: Device>(d: &mut D, first: u32, end: u32) -> Result<(), DeviceFault>
    requires within { end ≤ (D.Device.meaning d.old).sectors }
    ensures answer { MatchResult result (λ _. SectorsRead (D.Device.meaning d.old) first end) (λ f. FirstSector (D.Device.meaning d.old) first end f) }
    ensures same { D.Device.meaning d.new ≡ D.Device.meaning d.old }
{
    for s in first..end {
        d.state(s)?;
    }
    Ok(())
}
