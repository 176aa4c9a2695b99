//! Inner: bytes written over many sectors. The callers prove that they lie on the device.

ghost use Rattle.std.specs.Prelude.{◌+◌, ◌*◌, ◌≤◌, length};
ghost use Rattle.writing.specs.Runs.{Runs};

use device::device::{Device, WritableDevice};
use device::pieces::Pieces;
use faults::device::DeviceFault;

/// Writes bytes that may lie in many sectors, from the first on.
pub fn write_all<D: WritableDevice>(d: &mut D, place: u32, bytes: &[u8]) -> Result<(), DeviceFault>
    requires within { place + length bytes.now ≤ 512 * (D.Device.meaning d.old).sectors }
    ensures runs { Runs (D.Device.meaning d.old) place bytes.now result (D.Device.meaning d.new) }
{
    for piece in Pieces::new(place, bytes.len()) {
        d.write(piece.place, &bytes[piece.from..piece.to])?;
    }
    Ok(())
}
