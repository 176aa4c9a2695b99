//! What is refused of an input.

ghost use Rattle.std.specs.Prelude.{◌≡◌};
ghost use Rattle.answering.specs.declared.fault.InputFault.TheVariants.{File as by_file};
ghost use Rattle.answering.specs.Answers.{input_report};

use faults::file::FileFault;
use faults::report::Report;

/// The refusal of an input.
#[derive(Clone, Copy, PartialEq, Eq, Debug)]
pub enum InputFault {
    /// 27: it is longer than 61,440 bytes.
    Long,
    /// The refusal of the file, whole.
    File(FileFault),
}

impl From<FileFault> for InputFault {
    ghost from_gives = { λ x y. y ≡ by_file x };

    fn from(fault: FileFault) -> InputFault {
        InputFault::File(fault)
    }
}

impl From<InputFault> for Report {
    ghost from_gives = { λ fault report. report ≡ input_report fault };

    fn from(fault: InputFault) -> Report {
        match fault {
            InputFault::Long => Report::placed(27, 61440),
            InputFault::File(below) => Report::from(below),
        }
    }
}
