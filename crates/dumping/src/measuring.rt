//! Inner: how long the text of a file is. The callers prove that its records stand there.

ghost use Rattle.std.specs.Prelude.{◌≡◌, List, length};
ghost use Rattle.cdb.specs.Records.{Record};
ghost use Rattle.text.specs.Texts.{text};
ghost use Rattle.dumping.specs.Walks.{Standing};

use crate::walking::take;
use records::reader::RecordReader;
use text_writer::lines::line_len;

/// How long the text of the records is.
pub(crate) fn measure(file: &[u8], records: u32) -> usize
    requires { (rs : List Record) × Standing file.now rs × (records ≡ length rs) }
    ensures { (rs : List Record) × Standing file.now rs × (result ≡ length (text rs)) }
{
    let mut reader = RecordReader::new(file);
    // The line feed that ends a text.
    let mut len = 1;
    for _ in 0..records {
        len += line_len(take(&mut reader));
    }
    len
}
