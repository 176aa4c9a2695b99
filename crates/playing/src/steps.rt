//! The steps of a run, and what they answer.

use building::entries::Entry;
use faults::file::FileFault;
use faults::report::Report;
use history::calls::{Answer, Call};

/// A step of a run, on a device of which some things can become.
// Steps are data, so that the laws can speak of every list of them.
#[derive(Clone, Copy)]
pub enum Step<'a, T> {
    /// The device is formatted; if that is done, a history begins.
    Format,
    /// A call on the device.
    Call(Call<'a>),
    /// A call on a device of another size. It is not made if that has the same size, nor is an open.
    Elsewhere(Call<'a>),
    /// A lookup of all data of a key, on the live extent.
    Get(&'a [u8]),
    /// Something becomes of the device, inside a mount.
    Turn(T),
    /// The mount ends, something becomes of the device, and it is mounted again.
    Remount(T),
    /// An entry of the entry memory is overwritten, if there is such an entry.
    Scribble(usize, Entry),
}

/// What a step answered.
#[derive(Drop)]
pub enum Outcome {
    /// A format or a call.
    Answered(Answer),
    /// A lookup.
    Got(Result<Vec<Vec<u8>>, FileFault>),
    /// Something became of the device, or could not.
    Turned(Result<(), Report>),
    /// An entry was overwritten.
    Scribbled,
    /// The step was not made.
    Skipped,
}
