//! What a shelf refuses.

ghost use Rattle.std.specs.Prelude.{◌≡◌};
ghost use Rattle.shelf.specs.declared.fault.ShelfFault.TheVariants.{File as by_file};
ghost use Rattle.shelf.specs.Reports.{shelf_report};
ghost use Rattle.shelf.specs.Publishes.{ends_draft};

use faults::device::DeviceFault;
use faults::file::{FileFault, Located};
use faults::report::Report;

/// A shelf's refusal.
#[derive(Clone, Copy, PartialEq, Eq, Debug)]
pub enum ShelfFault {
    /// The refusal of a file, whole, with the place of the device at which the file starts.
    File(Located<FileFault>),
    /// 11: a device of another size.
    Size,
    /// 23: no lawful root.
    NoRoot,
    /// 24: the entry memory is full, or short.
    Entries,
    /// 25: the draft is full.
    Full,
    /// 28: a device of fewer than 9 sectors.
    Small,
}

impl ShelfFault {
    /// Whether a refused publish ends the draft: power is off then.
    pub(crate) fn ends_draft(&self) -> bool
        ensures { result ≡ ends_draft self.now }
    {
        match self {
            ShelfFault::File(
                Located {
                    fault: FileFault::Device(below),
                    ..
                },
            ) => below.fault == DeviceFault::Power,
            _ => false,
        }
    }
}

/// A fault is told by its number, table and place.
impl From<ShelfFault> for Report {
    ghost from_gives = { λ f r. r ≡ shelf_report f };

    fn from(fault: ShelfFault) -> Report {
        match fault {
            ShelfFault::File(below) => Report::from(below.fault),
            ShelfFault::Size => Report::bare(11),
            ShelfFault::NoRoot => Report::bare(23),
            ShelfFault::Entries => Report::bare(24),
            ShelfFault::Full => Report::bare(25),
            ShelfFault::Small => Report::bare(28),
        }
    }
}

impl From<Located<FileFault>> for ShelfFault {
    ghost from_gives = { λ x y. y ≡ by_file x };

    fn from(value: Located<FileFault>) -> ShelfFault {
        ShelfFault::File(value)
    }
}
