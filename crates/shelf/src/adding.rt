//! Adding a record to a draft.

ghost use Rattle.std.specs.Prelude.{◌≡◌, ◌+◌, ◌*◌, nat_le};
ghost use Rattle.shelf.specs.States.{live_at_draft, file_room};
ghost use Rattle.shelf.specs.Adds.{Adds};
ghost use Rattle.shelf.specs.Steps.{Stores};

use crate::fault::ShelfFault;
use crate::refusals::{AddRefused, Refused};
use crate::states::Draft;
use building::entries::Entry;
use cdb::hashing::hash;
use device::device::{Device, WritableDevice};
use faults::file::add_place;
use writing::records::write_record;

/// Whether a record of these lengths fits the draft's area, with its tables.
fn has_room(draft: &Draft, key: usize, value: usize) -> bool
    ensures { result ≡ nat_le (draft.now.position + (8 + (key + value)) + 16 * (draft.now.records + 1)) (file_room (live_at_draft draft.now)) }
{
    let room = draft.live.file_room() as usize;
    if key > room || value > room {
        return false;
    }
    draft.position as usize + (8 + (key + value)) + 16 * (draft.records as usize + 1) <= room
}

/// Refuses a record that cannot be added, or writes it.
fn store<D: WritableDevice>(
    d: &mut D,
    draft: &Draft,
    entries: usize,
    key: &[u8],
    value: &[u8],
) -> Result<(), ShelfFault>
    ensures stores { Stores (D.Device.meaning d.old) draft.now entries (record { key = key.entry.now; data' = value.now }) result (D.Device.meaning d.new) }
{
    if d.size() != draft.live.sectors {
        return Err(ShelfFault::Size);
    }
    if draft.records as usize >= entries {
        return Err(ShelfFault::Entries);
    }
    if !has_room(draft, key.len(), value.len()) {
        return Err(ShelfFault::Full);
    }
    let start = draft.live.file_start();
    add_place(
        write_record(d, start, draft.position, key, value),
        256,
        start as u64,
    )?;
    Ok(())
}

impl Draft {
    /// Writes a record behind the last, and notes its hash and place in the next entry.
    pub fn add<D: WritableDevice>(
        self,
        d: &mut D,
        entries: &mut [Entry],
        key: &[u8],
        value: &[u8],
    ) -> Result<Draft, AddRefused>
        ensures adds { Adds (D.Device.meaning d.old) self entries.old (record { key = key.entry.now; data' = value.now }) result (D.Device.meaning d.new) entries.new }
    {
        if let Err(fault) = store(d, &self, entries.len(), key, value) {
            return Err(Refused { fault, draft: self });
        }
        entries[self.records as usize] = Entry {
            hash: hash(key),
            place: self.position,
        };
        let size = 8 + (key.len() as u32 + value.len() as u32);
        Ok(Draft {
            live: self.live,
            position: self.position + size,
            records: self.records + 1,
        })
    }
}
