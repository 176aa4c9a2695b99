//! What the audit counts.

ghost use Rattle.std.specs.Prelude.{Some};

use std::fmt;

/// The counts of an accepted file.
#[derive(Clone, Copy, PartialEq, Eq, Debug)]
pub struct Counts {
    /// Its records.
    pub records: u32,
    /// The slots of all its tables.
    pub slots: u32,
    /// The slots that one search for each record looks at: the sum of distance plus one.
    pub probes: u64,
}

/// The records, the slots and the probes, with commas between them.
impl fmt::Display for Counts {
    ghost use Rattle.auditing.specs.Texts.{counts_text};

    ghost output = { λ counts. Some (counts_text counts) };

    fn fmt<W: fmt::Write>(&self, f: &mut fmt::Formatter<W>) -> fmt::Result {
        write!(f, "{},{},{}", self.records, self.slots, self.probes)
    }
}
