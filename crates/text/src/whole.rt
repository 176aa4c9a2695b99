//! Whole texts.

ghost use Rattle.std.specs.Prelude.{length};
ghost use Rattle.text.specs.Wholes.{GivesTheRecords, Reads, Tallies};

use crate::fault::TextFault;
use crate::lent::LentRecord;
use crate::reader::TextReader;
use crate::tally::Tally;

/// Counts the records of a text, and the bytes of their keys and data.
pub fn tally(text: &[u8]) -> Result<Tally, TextFault>
    ensures { Tallies text.now result }
{
    let mut reader = TextReader::new(text);
    let mut records = 0;
    let mut bytes = 0;
    while let Some(record) = reader.next()? {
        records += 1;
        bytes += record.key.len() + record.data.len();
    }
    Ok(Tally { records, bytes })
}

/// Reads a whole text into a lent list from its start on, and says how many records there are. A refused call writes nothing.
pub fn read_records<'a>(text: &'a [u8], into: &mut [LentRecord<'a>]) -> Result<usize, TextFault>
    ensures reads { Reads text.now (length into.old) into.old result into.new }
    ensures gives { GivesTheRecords text.now (length into.old) result into.new }
{
    let n = tally(text)?.records;
    let room = into.len();
    if room < n {
        return Err(TextFault::Short(room));
    }
    let mut records = TextReader::new(text);
    // As `records` does with its reader: a trait for two readers would need laws that are longer than this loop.
    // The text was read to its end before, so none of these calls is refused or comes to the end.
    for slot in into[..n].iter_mut() {
        *slot = records.next().unwrap().unwrap();
    }
    Ok(n)
}
