//! Why a script is malformed.

ghost use Rattle.std.specs.Prelude.{◌≡◌, Some};
ghost use Rattle.script.specs.Reasons.{error_text, reason_text};
ghost use Rattle.script.specs.declared.reason.ScriptError.TheVariants.{OutOfMemory};

use std::alloc::AllocFailed;
use std::error::Error;
use std::fmt;

/// Why a line, or a script that ends with it, is malformed.
#[derive(Clone, Copy, PartialEq, Eq, Debug)]
pub enum Reason {
    UnknownCommand,
    TooFewWords,
    TooManyWords,
    /// A space stands in front of the first word, or two stand between words.
    SpaceTooMany,
    NotNumber,
    NumberTooLarge,
    /// Behind a cut's number stands neither `all` nor `nothing`.
    NotTear,
    DeviceMissing,
    /// A command stands before the device.
    DeviceNotFirst,
    DeviceRepeated,
}

impl fmt::Display for Reason {
    ghost output = { λ r. Some (reason_text r) };

    fn fmt<W: fmt::Write>(&self, f: &mut fmt::Formatter<W>) -> fmt::Result {
        f.write_str(match self {
            Reason::UnknownCommand => "unknown command",
            Reason::TooFewWords => "too few words",
            Reason::TooManyWords => "too many words",
            Reason::SpaceTooMany => "a space too many",
            Reason::NotNumber => "not a number",
            Reason::NumberTooLarge => "number too large",
            Reason::NotTear => "neither all nor nothing",
            Reason::DeviceMissing => "no device",
            Reason::DeviceNotFirst => "a command before the device",
            Reason::DeviceRepeated => "a second device",
        })
    }
}

/// Why a text is not read as a script.
#[derive(Clone, Copy, PartialEq, Eq, Debug)]
pub enum ScriptError {
    /// The number of the first line with which no script goes on, and why.
    Malformed(usize, Reason),
    OutOfMemory,
}

impl fmt::Display for ScriptError {
    ghost output = { λ e. Some (error_text e) };

    fn fmt<W: fmt::Write>(&self, f: &mut fmt::Formatter<W>) -> fmt::Result {
        match self {
            ScriptError::Malformed(line, reason) => write!(f, "line {line}: {reason}"),
            ScriptError::OutOfMemory => f.write_str("out of memory"),
        }
    }
}

impl Error for ScriptError {}

impl<T: Drop> From<AllocFailed<T>> for ScriptError {
    ghost from_gives = { λ _ error. error ≡ OutOfMemory };

    fn from(_failed: AllocFailed<T>) -> ScriptError {
        Self::OutOfMemory
    }
}
