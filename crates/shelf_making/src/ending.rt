//! A draft that has its records, finished and published.

ghost use Rattle.shelf_making.specs.Ending.{EndsDraft};

use crate::fault::MakeRefused;
use building::entries::Entry;
use device::device::{Device, WritableDevice};
use shelf::states::{Draft, Shelf};

/// Finishes a draft and publishes it.
pub(crate) fn end_draft<D: WritableDevice>(
    draft: Draft,
    d: &mut D,
    entries: &[Entry],
) -> Result<Shelf, MakeRefused>
    ensures ends { EndsDraft (D.Device.meaning d.old) draft entries.now result (D.Device.meaning d.new) }
{
    let finished = draft.finish(d, entries)?;
    Ok(finished.publish(d)?)
}
