//! The records of a text, written to a device.

ghost use Rattle.std.specs.Prelude.{length};
ghost use Rattle.making.specs.Steps.{RecordsFit, PutsRecords};

use building::entries::Entry;
use cdb::hashing::hash;
use device::device::{Device, WritableDevice};
use faults::file::FileFault;
use text::reader::TextReader;
use writing::records::write_record;

/// Writes the records of a text from place 2048 on, notes an entry for each, and says where they end.
pub(crate) fn write_records<D: WritableDevice>(
    d: &mut D,
    entries: &mut [Entry],
    text: &[u8],
) -> Result<u32, FileFault>
    requires fit { RecordsFit (D.Device.meaning d.old) (length entries.old) text.now }
    ensures puts { PutsRecords (D.Device.meaning d.old) text.now result (D.Device.meaning d.new) entries.old entries.new }
{
    let mut records = TextReader::new(text);
    let mut place = 2048;
    // There is an entry for each record of the text, so none of these calls is refused or comes to the end.
    for entry in entries.iter_mut() {
        let record = records.next().unwrap().unwrap();
        write_record(d, 0, place, record.key, record.data)?;
        *entry = Entry {
            hash: hash(record.key),
            place,
        };
        place += 8 + (record.key.len() as u32 + record.data.len() as u32);
    }
    Ok(place)
}
