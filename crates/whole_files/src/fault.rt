//! Why a file that is read whole gives nothing.

ghost use Rattle.std.specs.Prelude.{◌≡◌, Some};
ghost use Rattle.whole_files.specs.declared.fault.WholeFault.TheVariants.{Refused as by_file, Memory as no_memory};
ghost use Rattle.whole_files.specs.Wholes.{fault_text};

use faults::file::FileFault;
use std::alloc::AllocError;
use std::error::Error;
use std::fmt;
use telling::refusal::Refusal;

/// Why a file that is read whole gives nothing.
#[derive(Clone, Copy, PartialEq, Eq, Debug)]
pub enum WholeFault {
    /// The file is refused.
    Refused(FileFault),
    /// Memory is wanting.
    Memory,
}

/// In plain words.
impl fmt::Display for WholeFault {
    ghost output = { λ fault. Some (fault_text fault) };

    fn fmt<W: fmt::Write>(&self, f: &mut fmt::Formatter<W>) -> fmt::Result {
        match self {
            WholeFault::Refused(fault) => write!(f, "{}", Refusal::new(*fault)),
            WholeFault::Memory => write!(f, "not enough memory"),
        }
    }
}

impl Error for WholeFault {}

impl From<FileFault> for WholeFault {
    ghost from_gives = { λ x y. y ≡ by_file x };

    fn from(fault: FileFault) -> WholeFault {
        WholeFault::Refused(fault)
    }
}

impl From<AllocError> for WholeFault {
    ghost from_gives = { λ _ y. y ≡ no_memory };

    fn from(_error: AllocError) -> WholeFault {
        WholeFault::Memory
    }
}
