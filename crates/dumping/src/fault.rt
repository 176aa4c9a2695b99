//! What a dump refuses.

ghost use Rattle.std.specs.Prelude.{◌≡◌};
ghost use Rattle.dumping.specs.declared.fault.DumpFault.TheVariants.{File as by_file};
ghost use Rattle.dumping.specs.Dumps.{dump_report};

use faults::file::FileFault;
use faults::report::Report;

/// The refusal of a dump.
#[derive(Clone, Copy, PartialEq, Eq, Debug)]
pub enum DumpFault {
    /// The audit's refusal of the file, whole.
    File(FileFault),
    /// 27: the text is longer than what was lent for it; how much that is.
    Short(usize),
}

impl From<FileFault> for DumpFault {
    ghost from_gives = { λ x y. y ≡ by_file x };

    fn from(fault: FileFault) -> DumpFault {
        DumpFault::File(fault)
    }
}

impl From<DumpFault> for Report {
    ghost from_gives = { λ fault report. report ≡ dump_report fault };

    fn from(fault: DumpFault) -> Report {
        match fault {
            DumpFault::File(below) => Report::from(below),
            DumpFault::Short(limit) => Report::placed(27, limit as u64),
        }
    }
}
