//! What can be done with a sector of any device.

ghost use Rattle.std.specs.Prelude.{◌≡◌, ◌*◌, IfOk};
ghost use Rattle.std.specs.Result.{result_map_both};
ghost use Rattle.device.specs.Meanings.{Written};

use device::device::{Device, WritableDevice};
use faults::device::DeviceFault;

/// Writes a sector and reads it again.
pub fn rewrite<D: WritableDevice>(
    device: &mut D,
    sector: u32,
    new: &[u8; 512],
) -> Result<[u8; 512], DeviceFault>
    ensures written { Written (D.Device.meaning device.old) (512 * sector) new.now (result_map_both (λ _. tt) (λ f. f) result) (D.Device.meaning device.new) }
    ensures again { IfOk result (λ bytes. bytes ≡ new.now) }
{
    if sector >= device.size() {
        return Err(DeviceFault::Range);
    }
    device.write(512 * sector, new)?;
    let mut bytes = [0; 512];
    device.read(512 * sector, &mut bytes)?;
    Ok(bytes)
}
