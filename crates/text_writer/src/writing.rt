//! The text writer.

ghost use Rattle.std.specs.Prelude.{◌≡◌, ◌+◌, ◌≤◌, map, length, Decides};
ghost use Rattle.std.specs.List.{AllByRecursion};
ghost use Rattle.text.specs.Texts.{Proper, text};
ghost use Rattle.text.specs.Readings.{lent};
ghost use Rattle.text_writer.specs.Sheets.{Adds};
ghost use Rattle.text_writer.specs.Writings.{GivesTheTextBack, ReadsBack, Writes};

use crate::lines::line_len;
use crate::sheet::Sheet;
use byte_lists::slices::know_bytes;
use text::fault::TextFault;
use text::lent::LentRecord;

/// Writes the text of a record list to the start of a lent buffer, and says how long it is. A refused call writes nothing.
pub fn write_text(records: &[LentRecord<'_>], buffer: &mut [u8]) -> Result<usize, TextFault>
    ensures writes { Writes (map lent records.now) (length buffer.old) buffer.old result buffer.new }
    ensures text_back { GivesTheTextBack (map lent records.now) (length buffer.old) result buffer.new }
    ensures list_back { ReadsBack (map lent records.now) result buffer.new }
{
    let room = buffer.len();
    if !all_proper(records) {
        return Err(TextFault::Long);
    }
    if !all_fit(records, room) {
        return Err(TextFault::Short(room));
    }
    let mut sheet = Sheet::new(buffer);
    sheet.put_text(records);
    Ok(sheet.written)
}

/// Whether the lengths of all keys and data are words.
fn all_proper(records: &[LentRecord<'_>]) -> bool
    ensures { Decides result (AllByRecursion Proper (map lent records.now)) }
{
    records.iter().all(|one| is_proper(*one))
}

fn is_proper(one: LentRecord<'_>) -> bool
    ensures { Decides result (Proper (lent one.entry)) }
{
    know_bytes(one.key);
    know_bytes(one.data);
    one.key.len() <= u32::MAX as usize && one.data.len() <= u32::MAX as usize
}

/// Whether the text has room.
fn all_fit(records: &[LentRecord<'_>], room: usize) -> bool
    requires { AllByRecursion Proper (map lent records.now) }
    ensures { Decides result (length (text (map lent records.now)) ≤ room) }
{
    // A loop is plainer here than a chain: the sum of the lengths may pass the largest number, and the length of a line asks that it be proper.
    let mut left = room;
    for one in records {
        let len = line_len(*one);
        if left < len {
            return false;
        }
        left -= len;
    }
    left > 0
}

impl Sheet<'_> {
    /// Writes the lines of the records, and the line feed that ends a text.
    fn put_text(&mut self, records: &[LentRecord<'_>])
        requires proper { AllByRecursion Proper (map lent records.now) }
        requires fits { self.old.written + length (text (map lent records.now)) ≤ length self.old.buffer.now }
        ensures { Adds (text (map lent records.now)) self.old self.new }
    {
        for one in records {
            self.put_line(*one);
        }
        self.put(b"\n");
    }
}
