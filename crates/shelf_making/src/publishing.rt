//! A file made on a shelf.

ghost use Rattle.std.specs.Prelude.{length, map};
ghost use Rattle.text.specs.Readings.{lent};
ghost use Rattle.shelf_making.specs.Laws.{GivesTheTextBack, KeepsLive, KeepsLiveByText, RefusedForCause, RefusedForCauseByText};
ghost use Rattle.shelf_making.specs.Makes.{Makes, MakesText};

use crate::adding::{add_records, add_text};
use crate::ending::end_draft;
use crate::fault::{MakeRefused, ShelfMakeFault};
use building::entries::Entry;
use device::device::{Device, WritableDevice};
use shelf::states::Shelf;
use text::lent::LentRecord;
use text::whole::tally;

/// Makes the file of a text in the area that is not live, and publishes it.
pub fn make_text<D: WritableDevice>(
    shelf: Shelf,
    d: &mut D,
    entries: &mut [Entry],
    text: &[u8],
) -> Result<Shelf, MakeRefused>
    ensures makes { MakesText (D.Device.meaning d.old) shelf entries.old text.now result (D.Device.meaning d.new) entries.new }
    ensures live { KeepsLiveByText (D.Device.meaning d.old) shelf (length entries.old) text.now result (D.Device.meaning d.new) }
    ensures back { GivesTheTextBack text.now result (D.Device.meaning d.new) }
    ensures cause { RefusedForCauseByText (D.Device.meaning d.old) shelf (length entries.old) text.now result (D.Device.meaning d.new) }
{
    if let Err(fault) = tally(text) {
        return Err(MakeRefused {
            fault: ShelfMakeFault::Text(fault),
            shelf: Some(shelf),
        });
    }
    let draft = add_text(shelf.begin(), d, entries, text)?;
    end_draft(draft, d, entries)
}

/// Makes the file of a list of records in the area that is not live, and publishes it.
pub fn make_records<D: WritableDevice>(
    shelf: Shelf,
    d: &mut D,
    entries: &mut [Entry],
    records: &[LentRecord<'_>],
) -> Result<Shelf, MakeRefused>
    ensures makes { Makes (D.Device.meaning d.old) shelf entries.old (map lent records.now) result (D.Device.meaning d.new) entries.new }
    ensures live { KeepsLive (D.Device.meaning d.old) shelf (length entries.old) (map lent records.now) result (D.Device.meaning d.new) }
    ensures cause { RefusedForCause (D.Device.meaning d.old) shelf (length entries.old) (map lent records.now) result (D.Device.meaning d.new) }
{
    let draft = add_records(shelf.begin(), d, entries, records)?;
    end_draft(draft, d, entries)
}
