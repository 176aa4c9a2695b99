//! What is refused of a mark.

ghost use Rattle.std.specs.Prelude.{◌≡◌};
ghost use Rattle.marks.specs.MarkReports.{mark_report};

use faults::report::Report;

/// A refusal to mark a sector.
#[derive(Clone, Copy, PartialEq, Eq, Debug)]
pub enum MarkFault {
    /// 11: the device has no such sector.
    Range,
    /// 29: sixteen other sectors are marked.
    Full,
}

/// A refusal to mark is told by its number; no table and no place are meant.
impl From<MarkFault> for Report {
    ghost from_gives = { λ fault report. report ≡ mark_report fault };

    fn from(fault: MarkFault) -> Report {
        match fault {
            MarkFault::Range => Report::bare(11),
            MarkFault::Full => Report::bare(29),
        }
    }
}
