//! Inner: zero bytes written over many sectors. The callers prove that they lie on the device.

ghost use Rattle.std.specs.Prelude.{◌+◌, ◌*◌, ◌≤◌, replicate};
ghost use Rattle.writing.specs.Runs.{Runs};

use device::device::{Device, WritableDevice};
use device::pieces::Pieces;
use faults::device::DeviceFault;

/// Writes `n` zero bytes.
// No slice holds them all, so this is no call of `write_all`, and a closure that gives each piece would be no plainer.
pub fn write_zeros<D: WritableDevice>(d: &mut D, place: u32, n: usize) -> Result<(), DeviceFault>
    requires within { place + n ≤ 512 * (D.Device.meaning d.old).sectors }
    ensures runs { Runs (D.Device.meaning d.old) place (replicate n 0) result (D.Device.meaning d.new) }
{
    let zeros = [0; 512];
    for piece in Pieces::new(place, n) {
        d.write(piece.place, &zeros[..piece.to - piece.from])?;
    }
    Ok(())
}
