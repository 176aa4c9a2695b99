//! What a slot holds for the key.

ghost use Rattle.std.specs.Prelude.{◌≡◌, ℕ, ◌+◌, ◌-◌, ◌*◌, ◌/◌, ◌%◌, ◌^◌, ◌<◌, ◌≤◌};
ghost use Rattle.lookup.specs.Probes.{WordsProbe, RecordProbe, SlotProbe, table_in};
ghost use Rattle.lookup.specs.Searches.{Kept};

use super::Search;
use crate::cursors::{Found, Probe};
use device::device::Device;
use faults::file::{FileFault, add_place};
use file::reading::read_words;
use file::words::Words;

impl<'d, 'k, D: Device> Search<'d, 'k, D> {
    /// The two words at a place of the file.
    fn words(&mut self, place: u64) -> Result<Words, FileFault>
        requires { place < 2 ^ 36 }
        ensures probe { WordsProbe (D.Device.meaning self.old.device.now) self.old.cursor.extent (table_in self.old.cursor) place result }
        ensures kept { Kept self.old self.new }
    {
        let extent = self.cursor.extent;
        let table = self.cursor.hash % 256;
        if place + 8 > extent.len as u64 {
            return Err(FileFault::Past(table, place));
        }
        let words = add_place(
            read_words(self.device, extent.start + place as u32),
            table,
            place,
        )?;
        Ok(words)
    }

    /// What the record at a place of the file is for the key.
    fn probe_record(&mut self, place: u32) -> Result<Probe, FileFault>
        ensures probe { RecordProbe (D.Device.meaning self.old.device.now) self.old.cursor.extent (table_in self.old.cursor) self.old.key.now place result }
        ensures kept { Kept self.old self.new }
    {
        let cursor = self.cursor;
        let table = cursor.hash % 256;
        let from = place as u64;
        let words = self.words(from)?;
        let end = from + 8 + words.first as u64 + words.second as u64;
        if end > cursor.extent.len as u64 {
            return Err(FileFault::Past(table, from));
        }
        if words.first as usize != self.key.len() {
            return Ok(Probe::Other);
        }
        let same = add_place(self.compare(place + 8), table, from)?;
        if !same {
            return Ok(Probe::Other);
        }
        Ok(Probe::Match(Found {
            place: place + 8 + words.first,
            len: words.second,
        }))
    }

    /// What a slot of the table holds for the key.
    pub(super) fn probe_slot(&mut self, index: u32) -> Result<Probe, FileFault>
        ensures probe { SlotProbe (D.Device.meaning self.old.device.now) self.old.cursor self.old.key.now index result }
        ensures kept { Kept self.old self.new }
    {
        let cursor = self.cursor;
        let place = cursor.position as u64 + 8 * index as u64;
        let words = self.words(place)?;
        if words.second == 0 {
            return Ok(Probe::Empty);
        }
        if words.first != cursor.hash {
            return Ok(Probe::Other);
        }
        self.probe_record(words.second)
    }
}
