//! The audit and the lookup by number for the file that some memory begins with.

ghost use Rattle.c_calls.specs.InMemory.{AuditsMemory, FindsInMemory, FindGivesRecord};

use auditing::auditing::audit;
use auditing::audits::Counts;
use faults::file::FileFault;
use file::extents::Extent;
use lookup::cursors::Found;
use lookup_nth::nth::nth;
use memory::reading::ReadMemory;

// Memory and length stay two parameters, as C hands them over.

/// Audits the file of `len` bytes that memory begins with; 11 where it does not lie in whole sectors of the memory.
pub fn audit_in_memory(memory: &[u8], len: u32) -> Result<Counts, FileFault>
    ensures { AuditsMemory memory.now len result }
{
    let extent = Extent::new(0, len)?;
    let mut device = ReadMemory::new(memory);
    audit(&mut device, extent)
}

/// The data of record `n` of a key, counted from 0, in the file of `len` bytes that memory begins with.
pub fn find_in_memory(
    memory: &[u8],
    len: u32,
    key: &[u8],
    n: u32,
) -> Result<Option<Found>, FileFault>
    ensures answer { FindsInMemory memory.now len key.now n result }
    ensures law { FindGivesRecord memory.now len key.now n result }
{
    let extent = Extent::new(0, len)?;
    let mut device = ReadMemory::new(memory);
    nth(&mut device, extent, key, n)
}
