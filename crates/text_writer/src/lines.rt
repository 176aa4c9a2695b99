//! Inner: the lines of a text. The callers prove that they fit, and that the lengths are words.

ghost use Rattle.std.specs.Prelude.{◌≡◌, ◌+◌, ◌^◌, ◌<◌, ◌≤◌, length};
ghost use Rattle.text.specs.Texts.{line};
ghost use Rattle.text.specs.Readings.{lent};
ghost use Rattle.text_writer.specs.Sheets.{Adds};

use crate::sheet::{Sheet, width};
use text::lent::LentRecord;

/// How long the line of a record is.
pub fn line_len(record: LentRecord<'_>) -> usize
    requires { (length «record».key.now < 2 ^ 32) × (length «record».«data».now < 2 ^ 32) }
    ensures { result ≡ length (line (lent «record».entry)) }
{
    let key_len = record.key.len();
    let data_len = record.data.len();
    // Six bytes are neither length, key nor data.
    width(key_len as u64) + width(data_len as u64) + key_len + data_len + 6
}

impl Sheet<'_> {
    /// Writes the line of a record.
    pub fn put_line(&mut self, record: LentRecord<'_>)
        requires words { (length «record».key.now < 2 ^ 32) × (length «record».«data».now < 2 ^ 32) }
        requires fits { self.old.written + length (line (lent «record»)) ≤ length self.old.buffer.now }
        ensures { Adds (line (lent «record».entry)) self.old self.new }
    {
        self.put(b"+");
        self.put_number(record.key.len() as u64, b',');
        self.put_number(record.data.len() as u64, b':');
        self.put(record.key);
        self.put(b"->");
        self.put(record.data);
        self.put(b"\n");
    }
}
