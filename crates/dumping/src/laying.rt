//! Inner: the text of a file on a sheet. The callers prove that its records stand there, and that the text has room.

ghost use Rattle.std.specs.Prelude.{◌≡◌, ◌+◌, ◌≤◌, List, length};
ghost use Rattle.cdb.specs.Records.{Record};
ghost use Rattle.text.specs.Texts.{text};
ghost use Rattle.text_writer.specs.Sheets.{Adds};
ghost use Rattle.dumping.specs.Walks.{Standing};

use crate::walking::take;
use records::reader::RecordReader;
use text_writer::sheet::Sheet;

/// Writes the text of the records.
pub(crate) fn lay_text(file: &[u8], records: u32, sheet: &mut Sheet<'_>)
    requires { (rs : List Record) × Standing file.now rs × (records ≡ length rs) × (sheet.old.written + length (text rs) ≤ length sheet.old.buffer.now) }
    ensures { (rs : List Record) × Standing file.now rs × Adds (text rs) sheet.old sheet.new }
{
    let mut reader = RecordReader::new(file);
    for _ in 0..records {
        sheet.put_line(take(&mut reader));
    }
    sheet.put(b"\n");
}
