//! Inner: bytes on a device, across its sectors. The callers prove that they lie on it.

ghost use Rattle.std.specs.Prelude.{◌≡◌, ℕ, ◌+◌, ◌-◌, ◌*◌, ◌/◌, ◌%◌, ◌^◌, ◌<◌, ◌≤◌, length, nat_le};
ghost use Rattle.file.specs.Ranges.{Fetched, WordsRead};

use crate::extents::Extent;
use crate::words::Words;
use device::device::Device;
use device::pieces::Pieces;
use faults::device::DeviceFault;

/// Whether an extent lies on a device.
pub fn is_on<D: Device>(d: &D, extent: Extent) -> bool
    ensures on { result ≡ nat_le (extent.start + extent.len) (512 * (D.Device.meaning d.now).sectors) }
{
    extent.start + extent.len <= 512 * d.size()
}

/// Fills a buffer with the bytes from a place on, by one read for each sector.
pub fn read_part<D: Device>(d: &mut D, place: u32, buffer: &mut [u8]) -> Result<(), DeviceFault>
    requires within { place + length buffer.old ≤ 512 * (D.Device.meaning d.old).sectors }
    ensures filled { Fetched (D.Device.meaning d.old) place buffer.old result buffer.new }
    ensures same { D.Device.meaning d.new ≡ D.Device.meaning d.old }
{
    for piece in Pieces::new(place, buffer.len()) {
        d.read(piece.place, &mut buffer[piece.from..piece.to])?;
    }
    Ok(())
}

/// The two words at a place. Nearly always they lie in one sector, and then one read of a known length takes the least time.
pub fn read_words<D: Device>(d: &mut D, place: u32) -> Result<Words, DeviceFault>
    requires within { place + 8 ≤ 512 * (D.Device.meaning d.old).sectors }
    ensures read { WordsRead (D.Device.meaning d.old) place result }
    ensures same { D.Device.meaning d.new ≡ D.Device.meaning d.old }
{
    let mut bytes = [0; 8];
    if place % 512 <= 504 {
        d.read(place, &mut bytes)?;
    } else {
        read_part(d, place, &mut bytes)?;
    }
    Ok(Words::from(bytes))
}
