//! What is refused of a text.

ghost use Rattle.std.specs.Prelude.{◌≡◌};
ghost use Rattle.text.specs.Reports.{text_report};

use faults::report::Report;

/// The refusal of a text, of a record list or of a buffer.
#[derive(Clone, Copy, PartialEq, Eq, Debug)]
pub enum TextFault {
    /// 10: the text is malformed; the first byte with which no text goes on, or the length of a text that ends early.
    Malformed(usize),
    /// 27: what was lent for writing is too short; its length.
    Short(usize),
    /// 27: a key or data is longer than a word can tell; the limit is 4,294,967,295.
    Long,
}

impl From<TextFault> for Report {
    ghost from_gives = { λ fault report. report ≡ text_report fault };

    fn from(fault: TextFault) -> Report {
        match fault {
            TextFault::Malformed(place) => Report::placed(10, place as u64),
            TextFault::Short(limit) => Report::placed(27, limit as u64),
            TextFault::Long => Report::placed(27, 4294967295),
        }
    }
}
