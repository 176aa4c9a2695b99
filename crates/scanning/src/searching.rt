//! Inner: rules 4 and 8, the search for the slot of a record.

ghost use Rattle.std.specs.Prelude.{◌≡◌, ℕ, ◌+◌, ◌-◌, ◌*◌, ◌/◌, ◌%◌, ◌^◌, ◌<◌, ◌≤◌, length};
ghost use Rattle.byte_lists.specs.Bytes.{word_at};
ghost use Rattle.file.specs.ReadableFiles.{contents, SameFile};
ghost use Rattle.scanning.specs.Headers.{TablesInside};
ghost use Rattle.scanning.specs.Searches.{Lowers, Searched, Located};

use crate::searches::{Search, Sought};
use cdb::tables::slot_away;
use device::device::Device;
use faults::file::FileFault;
use file::readable_file::ReadableFile;
use file::words::Words;

/// The lower of `low` and the place in a slot, if that is the place of a later record with the key of the record sought.
fn lowered<D: Device>(file: &mut ReadableFile<'_, D>, slot: Words, sought: Sought, low: u32) -> u32
    requires within { sought.place + 8 + sought.key ≤ length (contents file.old) }
    requires key { sought.key ≡ word_at (contents file.old) sought.place }
    ensures answer { Lowers (contents file.old) sought.hash sought.place slot.first slot.second low result }
    ensures same { SameFile file.old file.new }
{
    let place = slot.second;
    if slot.first != sought.hash || place <= sought.place {
        return low;
    }
    // Until rule 5 has been judged a slot may lead anywhere.
    if place as u64 + 8 + sought.key as u64 > file.len() as u64 {
        return low;
    }
    let words = file.words(place);
    if words.first != sought.key {
        return low;
    }
    if file.same(place + 8, sought.place + 8, sought.key) {
        low.min(place)
    } else {
        low
    }
}

/// Searches for a record in its table, and lowers `best` to each later record of its key on the way.
fn search<D: Device>(
    file: &mut ReadableFile<'_, D>,
    head: Words,
    sought: Sought,
    best: u32,
) -> Result<Search, FileFault>
    requires table { head.first + 8 * head.second ≤ length (contents file.old) }
    requires within { (0 < sought.place) × (sought.place + 8 + sought.key ≤ length (contents file.old)) }
    requires key { sought.key ≡ word_at (contents file.old) sought.place }
    ensures answer { Searched (contents file.old) head.first head.second sought.hash sought.place best result }
    ensures same { SameFile file.old file.new }
{
    let table = sought.hash % 256;
    let mut low = best;
    for distance in 0..head.second {
        let slot = file.words(head.first + 8 * slot_away(head.second, sought.hash, distance));
        if slot.second == 0 {
            return Err(FileFault::Lost(table, sought.place));
        }
        if slot.first == sought.hash && slot.second == sought.place {
            return Ok(Search {
                table,
                distance,
                low,
            });
        }
        low = lowered(file, slot, sought, low);
    }
    Err(FileFault::Lost(table, sought.place))
}

/// The table and the distance of the record at a place, and the lowest place of a record that overtakes it; or `best`.
pub(crate) fn locate<D: Device>(
    file: &mut ReadableFile<'_, D>,
    place: u32,
    key: u32,
    best: u32,
) -> Result<Search, FileFault>
    requires tables { TablesInside (contents file.old) }
    requires within { (0 < place) × (place + 8 + key ≤ length (contents file.old)) }
    requires key { key ≡ word_at (contents file.old) place }
    ensures located { Located (contents file.old) place best result }
    ensures same { SameFile file.old file.new }
{
    let hash = file.hash(place + 8, key);
    let head = file.words(8 * (hash % 256));
    search(file, head, Sought { place, key, hash }, best)
}
