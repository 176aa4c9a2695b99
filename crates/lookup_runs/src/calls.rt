//! The calls of a run and their answers.

ghost use Rattle.std.specs.Prelude.{◌≡◌};

use faults::file::FileFault;
use lookup::cursors::Found;

/// What a fetch of a run is to do: the number of the call of the run that found the data, the offset in the data, and the
/// part of the run's buffer to fill.
#[derive(Clone, Copy)]
pub struct Wanted {
    pub call: usize,
    pub offset: u32,
    pub place: usize,
    pub len: usize,
}

/// A call of a run.
// Calls are data, so that the law can speak of every list of them.
#[derive(Clone, Copy)]
pub enum Call<'a> {
    /// A next with this key. It is not made with a key of equal hash that is not the key of the run.
    Next(&'a [u8]),
    /// A fetch of data found. It is not made where that call found nothing, or the buffer has no such part.
    Fetch(Wanted),
}

/// What a call answered.
// Three names say more than an `Option` of two.
#[derive(Clone, Copy)]
pub enum Answer {
    Next(Result<Option<Found>, FileFault>),
    Fetch(Result<(), FileFault>),
    /// The call was not made.
    Skipped,
}

impl Answer {
    ghost use Rattle.lookup_runs.specs.Runs.{found_in};

    /// The data that it tells of.
    pub(crate) fn found(self) -> Option<Found>
        ensures { result ≡ found_in self }
    {
        match self {
            Answer::Next(Ok(found)) => found,
            Answer::Next(Err(_)) | Answer::Fetch(_) | Answer::Skipped => None,
        }
    }
}

/// Why a run made no calls.
#[derive(Clone, Copy)]
pub enum RunFault {
    /// There are not as many answers as calls.
    Room,
    /// The start was refused.
    Start(FileFault),
}
