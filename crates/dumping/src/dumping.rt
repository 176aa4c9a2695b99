//! The dump of a file that some memory begins with.

ghost use Rattle.std.specs.Prelude.{length};
ghost use Rattle.dumping.specs.Dumps.{Dumps, GivesTheText, Measures, OnlyDump, OnlyMeasure};

use crate::fault::DumpFault;
use crate::laying::lay_text;
use crate::measuring::measure;
use byte_lists::slices::know_bytes;
use c_calls::in_memory::audit_in_memory;
use faults::file::FileFault;
use text_writer::sheet::Sheet;

// Memory and length are two parameters, as the audit of a file in memory takes them.

/// How long the text of the file of `len` bytes is that memory begins with. A file that the audit refuses has none: its refusal is the answer.
pub fn dump_len(memory: &[u8], len: u32) -> Result<usize, FileFault>
    ensures answer { Measures memory.now len result }
    ensures only { OnlyMeasure memory.now len result }
{
    let counts = audit_in_memory(memory, len)?;
    know_bytes(memory);
    Ok(measure(&memory[..len as usize], counts.records))
}

/// Writes the file of `len` bytes that memory begins with as text to the start of a lent buffer, and says how long the text is.
/// A file that the audit refuses is refused first, then a buffer that is too short. A refused call writes nothing.
pub fn dump(memory: &[u8], len: u32, into: &mut [u8]) -> Result<usize, DumpFault>
    ensures answer { Dumps memory.now len (length into.old) into.old result into.new }
    ensures only { OnlyDump memory.now len (length into.old) into.old result into.new }
    ensures law { GivesTheText memory.now len (length into.old) result into.new }
{
    let room = into.len();
    let counts = audit_in_memory(memory, len)?;
    know_bytes(memory);
    let file = &memory[..len as usize];
    if room < measure(file, counts.records) {
        return Err(DumpFault::Short(room));
    }
    let mut sheet = Sheet::new(into);
    lay_text(file, counts.records, &mut sheet);
    Ok(sheet.written)
}
