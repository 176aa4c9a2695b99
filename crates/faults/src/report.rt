//! How a refusal is told.

ghost use Rattle.std.specs.Prelude.{◌≡◌, Some};
ghost use Rattle.faults.specs.Reports.{report, report_text};

use std::fmt;

/// A refusal's number, table and place; table 256 and place 0 where none is meant.
// Numbers, and 256 for no table, since the programs print them so and C is handed them so; the enums of faults are what code matches on.
#[derive(Clone, Copy, PartialEq, Eq, Debug)]
pub struct Report {
    pub number: u32,
    pub table: u32,
    pub place: u64,
}

impl Report {
    /// A refusal that names no table and no place.
    pub fn bare(number: u32) -> Report
        ensures { result ≡ report number 256 0 }
    {
        Report::placed(number, 0)
    }

    /// A refusal at a place, of no table.
    pub fn placed(number: u32, place: u64) -> Report
        ensures { result ≡ report number 256 place }
    {
        Report::in_table(number, 256, place)
    }

    /// A refusal at a place of a table.
    pub fn in_table(number: u32, table: u32, place: u64) -> Report
        ensures { result ≡ report number table place }
    {
        Report {
            number,
            table,
            place,
        }
    }
}

/// The number, the table and the place, with commas between them.
impl fmt::Display for Report {
    ghost output = { λ r. Some (report_text r) };

    fn fmt<W: fmt::Write>(&self, f: &mut fmt::Formatter<W>) -> fmt::Result {
        write!(f, "{},{},{}", self.number, self.table, self.place)
    }
}
