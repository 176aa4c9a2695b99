//! Many records, added to a draft one after the other.

ghost use Rattle.std.specs.Prelude.{map};
ghost use Rattle.text.specs.Texts.{Text};
ghost use Rattle.text.specs.Readings.{lent};
ghost use Rattle.shelf_making.specs.Adding.{AddsAll, AddsText};

use building::entries::Entry;
use device::device::{Device, WritableDevice};
use shelf::refusals::AddRefused;
use shelf::states::Draft;
use text::lent::LentRecord;
use text::reader::TextReader;

/// Adds the records of a text.
pub(crate) fn add_text<D: WritableDevice>(
    mut draft: Draft,
    d: &mut D,
    entries: &mut [Entry],
    text: &[u8],
) -> Result<Draft, AddRefused>
    requires whole { Text text.now }
    ensures adds { AddsText (D.Device.meaning d.old) draft entries.old text.now result (D.Device.meaning d.new) entries.new }
{
    let mut records = TextReader::new(text);
    // It is a text, so none of these calls is refused.
    while let Some(record) = records.next().unwrap() {
        draft = draft.add(d, entries, record.key, record.data)?;
    }
    Ok(draft)
}

/// Adds the records of a list.
pub(crate) fn add_records<D: WritableDevice>(
    mut draft: Draft,
    d: &mut D,
    entries: &mut [Entry],
    records: &[LentRecord<'_>],
) -> Result<Draft, AddRefused>
    ensures adds { AddsAll (D.Device.meaning d.old) draft entries.old (map lent records.now) result (D.Device.meaning d.new) entries.new }
{
    for record in records {
        draft = draft.add(d, entries, record.key, record.data)?;
    }
    Ok(draft)
}
