//! What refuses the making of a file.

ghost use Rattle.std.specs.Prelude.{◌≡◌};
ghost use Rattle.making.specs.declared.fault.MakeFault.TheVariants.{Text as by_text, File as by_file};
ghost use Rattle.making.specs.Reports.{make_report};

use faults::file::FileFault;
use faults::report::Report;
use text::fault::TextFault;

/// The refusal of a file that was to be made.
#[derive(Clone, Copy, PartialEq, Eq, Debug)]
pub enum MakeFault {
    /// 10: the text's refusal, whole.
    Text(TextFault),
    /// 24: the entry memory is short.
    Entries,
    /// 27: the file would be longer than this limit.
    Long(u32),
    /// The device's refusal, with the place of the file.
    File(FileFault),
}

/// A fault is told by its number, table and place.
impl From<MakeFault> for Report {
    ghost from_gives = { λ f r. r ≡ make_report f };

    fn from(fault: MakeFault) -> Report {
        match fault {
            MakeFault::Text(below) => Report::from(below),
            MakeFault::Entries => Report::bare(24),
            MakeFault::Long(limit) => Report::placed(27, u64::from(limit)),
            MakeFault::File(below) => Report::from(below),
        }
    }
}

impl From<TextFault> for MakeFault {
    ghost from_gives = { λ x y. y ≡ by_text x };

    fn from(value: TextFault) -> MakeFault {
        MakeFault::Text(value)
    }
}

impl From<FileFault> for MakeFault {
    ghost from_gives = { λ x y. y ≡ by_file x };

    fn from(value: FileFault) -> MakeFault {
        MakeFault::File(value)
    }
}
