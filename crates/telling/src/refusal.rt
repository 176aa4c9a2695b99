//! A refusal in plain words.

ghost use Rattle.std.specs.Prelude.{◌≡◌, Some};
ghost use Rattle.telling.specs.Words.{refusal_text, words};

use faults::report::Report;
use std::error::Error;
use std::fmt;

/// What was refused, for people to read.
#[derive(Clone, Copy, PartialEq, Eq, Debug)]
pub struct Refusal {
    pub report: Report,
}

impl Refusal {
    /// A fault, or its report, as people are told of it.
    pub fn new<F: Into<Report>>(fault: F) -> Refusal
        ensures { F.converts fault result.report }
    {
        Refusal {
            report: fault.into(),
        }
    }
}

/// The words for its number, then number, table and place.
impl fmt::Display for Refusal {
    ghost output = { λ r. Some (refusal_text r.report) };

    fn fmt<W: fmt::Write>(&self, f: &mut fmt::Formatter<W>) -> fmt::Result {
        let report = self.report;
        write!(
            f,
            "{}: number {}, table {}, place {}",
            words(report.number),
            report.number,
            report.table,
            report.place,
        )
    }
}

impl Error for Refusal {}

/// What the refusals of a number have in common.
fn words(number: u32) -> &'static str
    ensures { result.now ≡ words number }
{
    match number {
        1 => "not a lawful file: it is shorter than its header",
        2 => "not a lawful file: a header entry is wrong",
        3 => "not a lawful file: a record passes the end of the records",
        4 => "not a lawful file: a search for a record does not meet it",
        5 => "not a lawful file: a table has not as many filled slots as records",
        6 => "not a lawful file: a table with slots has no empty one",
        7 => "not a lawful file: an empty slot has a hash",
        8 => "not a lawful file: a search meets a record before an earlier one of its key",
        9 => "a slot or a record passes the end of the file",
        10 => "malformed text",
        11 => "outside the device, the file or the data",
        21 => "no power",
        22 => "a bad sector",
        23 => "no lawful root",
        24 => "not enough entry memory",
        25 => "the draft is full",
        26 => "the cursor belongs to another key",
        27 => "the output is too short, or the input too long",
        28 => "a device of fewer than 9 sectors",
        29 => "16 other sectors are marked",
        _ => "refused",
    }
}

#[cfg(test)]
mod tests {
    use super::*;
    use faults::file::FileFault;
    use std::test::Fail;

    // As the programs print them.
    #[test]
    fn tells_refusals(rt: HostRuntime) -> Result<(), Fail> {
        let fault = Refusal::new(FileFault::Order(196, 2058)).to_string(rt.alloc())?;
        assert_eq!(rt;
            fault.as_str(),
            "not a lawful file: a search meets a record before an earlier one of its key: number 8, table 196, place 2058",
        );
        let report = Refusal::new(Report::placed(10, 2)).to_string(rt.alloc())?;
        assert_eq!(rt;
            report.as_str(),
            "malformed text: number 10, table 256, place 2"
        );
        Ok(())
    }
}
