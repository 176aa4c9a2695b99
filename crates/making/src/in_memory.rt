//! A file made from a text in memory.

ghost use Rattle.making.specs.InMemory.{MakesInMemory};

use crate::fault::MakeFault;
use crate::whole::make_file;
use building::entries::Entry;
use memory::writing::{Budget, RootTear, WriteMemory};

/// Makes the file of a text at the start of lent memory, of which whole sectors are used, and hands it out.
// No clause says what becomes of the memory, though a refused call leaves it: the result borrows from it, so it has no value at the
// exit, and a clause on the loan would have to follow it through `make_file`, which takes any device.
pub fn make_in_memory<'a>(
    memory: &'a mut [u8],
    entries: &mut [Entry],
    text: &[u8],
) -> Result<&'a [u8], MakeFault>
    ensures makes { MakesInMemory memory.old entries.old text.now result entries.new }
{
    let mut device = WriteMemory::new(memory, Budget::Endless, RootTear::All);
    let len = make_file(&mut device, entries, text)?;
    Ok(&device.into_bytes()[..len as usize])
}
