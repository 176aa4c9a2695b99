//! Scripts, run from their first line to their last.

ghost use Rattle.std.specs.Prelude.{◌≡◌, ◌*◌, true, replicate};
ghost use Rattle.replaying.specs.Runs.{Replays};

use crate::answers::answers_of;
use crate::bed::Bed;
use crate::steps::steps_of;
use building::entries::Entry;
use memory::writing::{Budget, RootTear, WriteMemory};
use playing::running::run;
use script::answer::Answer;
use script::whole::Script;
use stacks::over_memory::{CacheOverMarks, OverMemory};
use std::alloc::{AllocError, Global};

/// The bytes of a sector.
const SECTOR: usize = 512;

/// Runs a script on memory of zero bytes, with an entry memory of zeros, and tells what each command answered.
pub fn replay(alloc: Global, script: &Script<'_>) -> Result<Vec<Answer>, AllocError>
    ensures { Replays script.now result }
{
    let mut bytes = vec![in alloc; 0u8; script.sizes.sectors as usize * SECTOR]?;
    let blank = Entry { hash: 0, place: 0 };
    let mut entries = vec![in alloc; blank; script.sizes.entries as usize]?;
    let steps = steps_of(alloc, &script.lines)?;
    let cache = CacheOverMarks::over(&mut bytes, Budget::Endless, RootTear::All);
    // No step of a script goes to another device.
    let mut none = [0u8; 0];
    let mut other = WriteMemory::new(&mut none, Budget::Endless, RootTear::All);
    let ran = run(alloc, Bed(cache), &mut other, &mut entries, &steps)?;
    answers_of(alloc, ran.log)
}
