//! Opening a shelf.

ghost use Rattle.std.specs.Prelude.{◌≡◌};
ghost use Rattle.shelf.specs.Opens.{Opens};

use crate::fault::ShelfFault;
use crate::live::LiveFile;
use crate::states::Shelf;
use areas::roots::read_root;
use device::device::Device;
use faults::file::add_place;

/// Reads the root, and answers the shelf that it names.
pub fn open<D: Device>(d: &mut D) -> Result<Shelf, ShelfFault>
    ensures opens { Opens (D.Device.meaning d.old) result }
    ensures same { D.Device.meaning d.new ≡ D.Device.meaning d.old }
{
    let sectors = d.size();
    let root = add_place(read_root(d), 256, 0)?.ok_or(ShelfFault::NoRoot)?;
    Ok(Shelf {
        live: LiveFile { sectors, root },
    })
}
