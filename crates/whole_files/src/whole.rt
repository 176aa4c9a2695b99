//! A file that is read whole, in memory.

ghost use Rattle.std.specs.Prelude.{◌*◌, ◌≤◌};
ghost use Rattle.c_calls.specs.InMemory.{Fits};

/// A file that is read whole, and the sectors in memory that it lies in.
#[derive(Drop)]
pub struct WholeFile {
    pub(crate) memory: Vec<u8>,
    pub(crate) len: u32,
    ghost fits: { Fits memory.items len },
}
