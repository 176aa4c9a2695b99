//! Inner: rule 2, the header.

ghost use Rattle.std.specs.Prelude.{◌≡◌, ℕ, ◌+◌, ◌-◌, ◌*◌, ◌/◌, ◌%◌, ◌^◌, ◌<◌, ◌≤◌, length, true, false, Decides, MatchResult};
ghost use Rattle.file.specs.ReadableFiles.{contents, SameFile};
ghost use Rattle.scanning.specs.Headers.{Stands, BreaksEntry, Header};

use device::device::Device;
use faults::file::FileFault;
use file::readable_file::ReadableFile;
use file::words::Words;

/// Where the records end, at the first table; refuses the first table whose header entry breaks rule 2.
// That the tables lie inside the file stands in the clauses of all that reads tables. A type for it would have to hold the file, which
// is lent already, and to be lent again to each of these functions, which is no plainer. The loop is over a range, since each turn reads the lent
// file and carries where the next table is due.
pub fn check_header<D: Device>(file: &mut ReadableFile<'_, D>) -> Result<u32, FileFault>
    requires { 2048 ≤ length (contents file.old) }
    ensures answer { MatchResult result (λ end. Header (contents file.old) end) (λ x. BreaksEntry (contents file.old) x) }
    ensures same { SameFile file.old file.new }
{
    let len = file.len();
    let mut due: u64 = 0;
    for t in 0..256u32 {
        let entry = file.words(8 * t);
        if !stands(t, due, entry, len) {
            return Err(FileFault::Entry(t));
        }
        due = entry.first as u64 + 8 * entry.second as u64;
    }
    Ok(file.words(0).first)
}

/// Whether a header entry is as rule 2 asks, in a file of `len` bytes: `due` is the end of the table before.
fn stands(t: u32, due: u64, entry: Words, len: u32) -> bool
    ensures { Decides result (Stands t due entry.first entry.second len) }
{
    let end = entry.first as u64 + 8 * entry.second as u64;
    if end > len as u64 || (t == 255 && end != len as u64) {
        return false;
    }
    if t == 0 {
        return entry.first >= 2048 && entry.first <= len;
    }
    entry.first as u64 == due
}
