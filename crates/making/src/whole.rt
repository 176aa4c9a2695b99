//! A file made from a text.

ghost use Rattle.making.specs.Makes.{MakesFile};
ghost use Rattle.making.specs.Laws.{GivesTheTextBack, RefusedForCause};

use crate::fault::MakeFault;
use crate::sizes::len_within;
use crate::writing_records::write_records;
use building::closing::close;
use building::entries::Entry;
use device::device::{Device, WritableDevice};
use text::whole::tally;

/// Makes the file of a text at the start of a device, with the entry memory that is lent, and says how long it is.
pub fn make_file<D: WritableDevice>(
    d: &mut D,
    entries: &mut [Entry],
    text: &[u8],
) -> Result<u32, MakeFault>
    ensures makes { MakesFile (D.Device.meaning d.old) entries.old text.now result (D.Device.meaning d.new) entries.new }
    ensures back { GivesTheTextBack text.now result (D.Device.meaning d.new) }
    ensures cause { RefusedForCause (D.Device.meaning d.old) text.now result (D.Device.meaning d.new) }
{
    let counts = tally(text)?;
    let records = counts.records;
    if entries.len() < records {
        return Err(MakeFault::Entries);
    }
    let len = len_within(counts, 512 * d.size())?;
    let end = write_records(d, &mut entries[..records], text)?;
    close(d, 0, end, &entries[..records])?;
    Ok(len)
}
