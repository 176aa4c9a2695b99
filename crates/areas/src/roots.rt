//! Inner: the root, read and written as the whole of sector 0.

ghost use Rattle.std.specs.Prelude.{◌≡◌, ◌≤◌, ◌↔◌, IsTrue};
ghost use Rattle.areas.specs.Geometry.{root_bytes};
ghost use Rattle.areas.specs.Roots.{LawfulRoot};
ghost use Rattle.areas.specs.Steps.{WritesRoot, ReadsSector, RootIn, ReadsRoot};

use crate::area::Area;
use crate::places::area_size;
use byte_lists::slices::{equal, lay_over, two_words, word_at};
use device::device::{Device, WritableDevice};
use faults::file::{FileFault, add_place};

/// The live area and the live length.
#[derive(Clone, Copy)]
pub struct Root {
    pub area: Area,
    pub len: u32,
}

/// The root's bytes.
fn root_bytes(root: Root) -> [u8; 512]
    ensures { result ≡ root_bytes root.area root.len }
{
    let mut bytes = [0u8; 512];
    lay_over(&mut bytes, 0, &two_words(root.area.into(), root.len));
    bytes
}

/// Writes the root by one write.
pub fn write_root<D: WritableDevice>(d: &mut D, root: Root) -> Result<(), FileFault>
    ensures writes { WritesRoot (D.Device.meaning d.old) root.area root.len result (D.Device.meaning d.new) }
{
    add_place(d.write(0, &root_bytes(root)), 256, 0)?;
    Ok(())
}

/// Fills a buffer with sector 0.
fn read_sector<D: Device>(d: &mut D, bytes: &mut [u8; 512]) -> Result<(), FileFault>
    ensures reads { ReadsSector (D.Device.meaning d.old) result bytes.new }
    ensures same { D.Device.meaning d.new ≡ D.Device.meaning d.old }
{
    add_place(d.read(0, bytes), 256, 0)?;
    Ok(())
}

/// Whether the bytes of sector 0 are this root, and its length fits its area.
fn is_lawful(bytes: &[u8; 512], sectors: u32, root: Root) -> bool
    requires { sectors ≤ 8388607 }
    ensures { IsTrue result ↔ LawfulRoot bytes.now sectors root.area root.len }
{
    let room = area_size(sectors);
    if root.len < 2048 || root.len > room {
        return false;
    }
    equal(bytes, &root_bytes(root))
}

/// The lawful root that the bytes of sector 0 are.
fn root_in(bytes: &[u8; 512], sectors: u32) -> Option<Root>
    requires { sectors ≤ 8388607 }
    ensures { RootIn bytes.now sectors result }
{
    let Ok(area) = Area::try_from(word_at(bytes, 0)) else {
        return None;
    };
    let root = Root {
        area,
        len: word_at(bytes, 4),
    };
    is_lawful(bytes, sectors, root).then_some(root)
}

/// Reads the root: none where it is not lawful.
pub fn read_root<D: Device>(d: &mut D) -> Result<Option<Root>, FileFault>
    ensures reads { ReadsRoot (D.Device.meaning d.old) result }
    ensures same { D.Device.meaning d.new ≡ D.Device.meaning d.old }
{
    let mut bytes = [0u8; 512];
    read_sector(d, &mut bytes)?;
    Ok(root_in(&bytes, d.size()))
}
