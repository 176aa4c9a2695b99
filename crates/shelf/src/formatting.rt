//! Formatting a device.

ghost use Rattle.std.specs.Prelude.{◌≤◌};
ghost use Rattle.shelf.specs.Formats.{Formats};
ghost use Rattle.shelf.specs.Steps.{WritesShelf};

use crate::fault::ShelfFault;
use crate::live::LiveFile;
use crate::states::Shelf;
use areas::area::Area;
use areas::roots::{Root, write_root};
use building::heading::write_empty;
use device::device::{Device, WritableDevice};
use faults::file::add_place;

/// The root of a new shelf: the file without records is live, in area 0.
const NEW_ROOT: Root = Root {
    area: Area::Zero,
    len: 2048,
};

/// Writes the file without records and the root, on a device that has room.
fn write_shelf<D: WritableDevice>(d: &mut D) -> Result<(), ShelfFault>
    requires room { 9 ≤ (D.Device.meaning d.old).sectors }
    ensures writes { WritesShelf (D.Device.meaning d.old) result (D.Device.meaning d.new) }
{
    add_place(write_empty(d, 512), 256, 512)?;
    add_place(write_root(d, NEW_ROOT), 256, 0)?;
    Ok(())
}

/// Puts the file that has no records into area 0, and a root that names it.
pub fn format<D: WritableDevice>(d: &mut D) -> Result<Shelf, ShelfFault>
    ensures formats { Formats (D.Device.meaning d.old) result (D.Device.meaning d.new) }
{
    let sectors = d.size();
    if sectors < 9 {
        return Err(ShelfFault::Small);
    }
    write_shelf(d)?;
    Ok(Shelf {
        live: LiveFile {
            sectors,
            root: NEW_ROOT,
        },
    })
}
