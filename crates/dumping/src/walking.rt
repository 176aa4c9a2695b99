//! Inner: the records of a file from the first to the last. The callers prove that so many stand there.

ghost use Rattle.std.specs.Prelude.{◌≡◌, ◌^◌, ◌<◌, List, ◌∷◌, length};
ghost use Rattle.cdb.specs.Records.{Record};
ghost use Rattle.text.specs.Readings.{lent};
ghost use Rattle.dumping.specs.Walks.{Ahead};

use records::reader::RecordReader;
use text::lent::LentRecord;

/// The next record of a reader that has one ahead.
pub(crate) fn take<'a>(reader: &mut RecordReader<'a>) -> LentRecord<'a>
    requires { (r : Record) × (rs : List Record) × Ahead reader.old.file.now reader.old.place (r ∷ rs) }
    ensures first { (r : Record) (rs : List Record) → Ahead reader.old.file.now reader.old.place (r ∷ rs) → (lent result ≡ r) × Ahead reader.old.file.now reader.new.place rs }
    ensures words { (length result.key.now < 2 ^ 32) × (length result.«data».now < 2 ^ 32) }
    ensures same { reader.new.file.now ≡ reader.old.file.now }
{
    let record = reader.next().unwrap().unwrap();
    LentRecord {
        key: record.key,
        data: record.data,
    }
}
