//! The lines that answer the commands.

ghost use Rattle.std.specs.Prelude.{◌≡◌, ◌<◌, map, Some};
ghost use Rattle.std.specs.Char.{digit_char};
ghost use Rattle.script.specs.Sayings.{act};
ghost use Rattle.script.specs.Telling.{answer_line, name_of, shown, shown_byte, told, told_data};

use crate::command::Command;
use faults::report::Report;
use std::fmt;

/// What a command is answered.
#[derive(Drop)]
pub enum Answer {
    Done,
    Refused(Report),
    /// The command does not build on the state at hand.
    Unfit,
    /// All data of a key.
    Data(Vec<Vec<u8>>),
}

/// The line that answers a command, without its line feed.
#[derive(Drop)]
pub struct AnswerLine<'a> {
    pub command: Command<'a>,
    pub answer: Answer,
}

/// A byte of data.
#[derive(Clone, Copy)]
struct ShownByte(u8);

/// Data as a word.
#[derive(Clone, Copy)]
struct Shown<'a>(&'a [u8]);

/// All data of a key.
#[derive(Clone, Copy)]
struct ShownData<'a>(&'a [Vec<u8>]);

impl Command<'_> {
    /// The first word of the command.
    pub fn name(&self) -> &'static str
        ensures { result.now ≡ name_of (act self.now) }
    {
        match self {
            Command::Format => "format",
            Command::Open => "open",
            Command::Begin => "begin",
            Command::Add(_, _) => "add",
            Command::Finish => "finish",
            Command::Publish => "publish",
            Command::Abandon => "abandon",
            Command::Get(_) => "get",
            Command::Mark(_) => "mark",
            Command::Cut(_, _) => "cut",
            Command::Power => "power",
            Command::Scribble(_, _, _) => "scribble",
        }
    }
}

/// A hexadecimal digit, with small letters.
fn hex_digit(value: u8) -> char
    requires { value < 16 }
    ensures { result ≡ digit_char value }
{
    char::from_digit(u32::from(value), 16).unwrap()
}

impl fmt::Display for ShownByte {
    ghost output = { λ b. Some (shown_byte b.0) };

    fn fmt<W: fmt::Write>(&self, f: &mut fmt::Formatter<W>) -> fmt::Result {
        let byte = self.0;
        if byte.is_ascii_graphic() && byte != b'\\' {
            write!(f, "{}", byte as char)
        } else {
            write!(f, "\\x{}{}", hex_digit(byte / 16), hex_digit(byte % 16))
        }
    }
}

impl fmt::Display for Shown<'_> {
    ghost output = { λ d. Some (shown d.0.now) };

    fn fmt<W: fmt::Write>(&self, f: &mut fmt::Formatter<W>) -> fmt::Result {
        if self.0.is_empty() {
            return f.write_str("\"\"");
        }
        for byte in self.0 {
            write!(f, "{}", ShownByte(*byte))?;
        }
        Ok(())
    }
}

impl fmt::Display for ShownData<'_> {
    ghost output = { λ d. Some (told_data (map (λ v. v.items) d.0.now)) };

    fn fmt<W: fmt::Write>(&self, f: &mut fmt::Formatter<W>) -> fmt::Result {
        let Some((first, others)) = self.0.split_first() else {
            return f.write_str("none");
        };
        write!(f, "{}", Shown(first))?;
        for other in others {
            write!(f, " {}", Shown(other))?;
        }
        Ok(())
    }
}

impl fmt::Display for Answer {
    ghost output = { λ a. Some (told a) };

    fn fmt<W: fmt::Write>(&self, f: &mut fmt::Formatter<W>) -> fmt::Result {
        match self {
            Answer::Done => f.write_str("done"),
            Answer::Refused(report) => {
                write!(
                    f,
                    "refused {} {} {}",
                    report.number, report.table, report.place
                )
            }
            Answer::Unfit => f.write_str("does not build"),
            Answer::Data(data) => write!(f, "{}", ShownData(data)),
        }
    }
}

impl fmt::Display for AnswerLine<'_> {
    ghost output = { λ l. Some (answer_line (act l.command) l.answer) };

    fn fmt<W: fmt::Write>(&self, f: &mut fmt::Formatter<W>) -> fmt::Result {
        write!(f, "{}: {}", self.command.name(), self.answer)
    }
}
