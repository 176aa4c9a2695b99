//! The audit.

ghost use Rattle.std.specs.Prelude.{◌≡◌, ℕ, ◌+◌, ◌-◌, ◌*◌, ◌/◌, ◌%◌, ◌^◌, ◌<◌, ◌≤◌, length};
ghost use Rattle.byte_lists.specs.Bytes.{word_at};
ghost use Rattle.cdb.specs.Verdicts.{Judged};
ghost use Rattle.file.specs.ReadableFiles.{contents, SameFile};
ghost use Rattle.auditing.specs.Audits.{verdict, Audited, OnlyAnswer, AcceptedExactlyWhenMade, OneRecordList};
ghost use Rattle.auditing.specs.Orders.{Ordered};

use crate::audits::Counts;
use crate::tables::check_tables;
use device::device::Device;
use faults::file::FileFault;
use file::extents::Extent;
use file::readable::check_readable;
use file::readable_file::ReadableFile;
use scanning::header::check_header;
use scanning::placing::place_records;
use scanning::walk::count_records;

/// The bytes of a header: an entry of two words for each of 256 tables.
const HEADER: u32 = 2048;

/// Refuses the record at `low` by rule 8, if it is one before `end`.
fn check_order<D: Device>(
    file: &mut ReadableFile<'_, D>,
    end: u32,
    low: u32,
) -> Result<(), FileFault>
    requires { low < end → low + 8 + word_at (contents file.old) low ≤ length (contents file.old) }
    ensures answer { Ordered (contents file.old) end low result }
    ensures same { SameFile file.old file.new }
{
    if low >= end {
        return Ok(());
    }
    let words = file.words(low);
    let hash = file.hash(low + 8, words.first);
    Err(FileFault::Order(hash % 256, low))
}

/// The eight rules in turn.
fn judge<D: Device>(file: &mut ReadableFile<'_, D>) -> Result<Counts, FileFault>
    ensures judged { Judged (contents file.old) (verdict result) }
    ensures same { SameFile file.old file.new }
{
    let len = file.len();
    if len < HEADER {
        return Err(FileFault::Short(len));
    }
    let end = check_header(file)?;
    let records = count_records(file, end)?;
    let placing = place_records(file, end)?;
    check_tables(file, &placing.counts)?;
    check_order(file, end, placing.low)?;
    Ok(Counts {
        records,
        slots: (len - end) / 8,
        probes: placing.probes,
    })
}

/// Audits the file in an extent. Refuses 11, 21 or 22 if it cannot be read, then by the first rule that it breaks, 1 to 8.
// Device and extent stay parameters, as in `lookup::calls`: most extents are read once.
pub fn audit<D: Device>(d: &mut D, e: Extent) -> Result<Counts, FileFault>
    ensures verdict { Audited (D.Device.meaning d.old) e result }
    ensures only { OnlyAnswer (D.Device.meaning d.old) e result }
    ensures made { AcceptedExactlyWhenMade (D.Device.meaning d.old) e result }
    ensures reading { OneRecordList (D.Device.meaning d.old) e }
    ensures same { D.Device.meaning d.new ≡ D.Device.meaning d.old }
{
    check_readable(d, e)?;
    let mut file = ReadableFile {
        device: d,
        extent: e,
    };
    judge(&mut file)
}
