//! The record reader's calls.

ghost use Rattle.std.specs.Prelude.{◌≡◌, ◌≤◌, List, length};
ghost use Rattle.byte_lists.specs.Bytes.{word_at};
ghost use Rattle.cdb.specs.Files.{position};
ghost use Rattle.records.specs.Readings.{Fills, Hands};
ghost use Rattle.records.specs.Steps.{Ends, Found, Meets};
ghost use Rattle.records.specs.Laws.{FillsInOrder, HandsOutInOrder, HandsOutRecords, RefusesAsJudged};

use crate::placed::PlacedRecord;
use crate::reader::RecordReader;
use byte_lists::slices::word_at;
use faults::file::FileFault;

impl<'a> RecordReader<'a> {
    /// A reader at the first record.
    pub fn new(file: &'a [u8]) -> RecordReader<'a>
        ensures stands { (result.file.now ≡ file.now) × (result.place ≡ 2048) }
        ensures any { HandsOutRecords file.now }
        ensures lawful { HandsOutInOrder file.now }
        ensures judged { RefusesAsJudged file.now }
    {
        RecordReader { file, place: 2048 }
    }

    /// The next record, or none where the records end. A refused reader stays put.
    // No `Iterator`: a refused reader refuses again, so its items would not end.
    pub fn next(&mut self) -> Result<Option<PlacedRecord<'a>>, FileFault>
        ensures hands { Hands self.old.file.now self.old.place result self.new.place }
        ensures same { self.new.file.now ≡ self.old.file.now }
    {
        let file = self.file;
        let end = records_end(file)?;
        let found = record_at(file, self.place, end)?;
        if let Some(record) = found {
            self.place = record.end();
        }
        Ok(found)
    }

    /// Fills a lent list from its start with as many of the next records as it has room for, with fewer only where the records end, and says how many.
    /// A refused call writes nothing, and the reader stays put.
    pub fn fill(&mut self, into: &mut [PlacedRecord<'a>]) -> Result<usize, FileFault>
        ensures fills { Fills self.old.file.now self.old.place (length into.old) into.old result into.new self.new.place }
        ensures lawful { FillsInOrder self.old.file.now self.old.place (length into.old) result into.new }
        ensures same { self.new.file.now ≡ self.old.file.now }
    {
        let n = self.ahead(into.len())?;
        // So many records are there, so none of these calls is refused or comes to the end.
        // As `text` does with its reader: a trait for two readers would need laws that are longer than this loop.
        for slot in into[..n].iter_mut() {
            *slot = self.next().unwrap().unwrap();
        }
        Ok(n)
    }

    /// How many of the next records there are, at most so many.
    // A range, since each turn carries the place and may refuse.
    fn ahead(&self, most: usize) -> Result<usize, FileFault>
        ensures { Meets self.now.file.now self.now.place most result }
    {
        let file = self.file;
        let end = records_end(file)?;
        let mut place = self.place;
        for n in 0..most {
            match record_at(file, place, end)? {
                None => return Ok(n),
                Some(record) => place = record.end(),
            }
        }
        Ok(most)
    }
}

/// Where the records of a file end: at table 0.
fn records_end(file: &[u8]) -> Result<u32, FileFault>
    ensures { Ends file.now result }
{
    if file.len() < 2048 {
        return Err(FileFault::Short(file.len() as u32));
    }
    let end = word_at(file, 0);
    if end < 2048 || end as usize > file.len() {
        return Err(FileFault::Entry(0));
    }
    Ok(end)
}

/// The record at a place, or none where the records end.
fn record_at(file: &[u8], place: u32, end: u32) -> Result<Option<PlacedRecord<'_>>, FileFault>
    requires { (place ≤ end) × (end ≤ length file.now) × (end ≡ position file.now 0) }
    ensures { Found file.now place result }
{
    let room = end - place;
    if room == 0 {
        return Ok(None);
    }
    if room < 8 {
        return Err(FileFault::Record(place));
    }
    let start = place as usize;
    let key_len = word_at(file, start) as usize;
    let data_len = word_at(file, start + 4) as usize;
    if (room as usize) < 8 + key_len + data_len {
        return Err(FileFault::Record(place));
    }
    let data_start = start + 8 + key_len;
    Ok(Some(PlacedRecord {
        place,
        key: &file[start + 8..data_start],
        data: &file[data_start..data_start + data_len],
        data_place: data_start as u32,
    }))
}
