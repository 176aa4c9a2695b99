//! Lines, each with what it says or why it is refused.

use checks::check_eq;
use script::command::{Command, Sizes, Statement, Tear};
use script::line::parse_line;
use script::reason::Reason;
use std::test::Fail;

fn says(line: &[u8], command: Command<'_>) -> Result<(), Fail> {
    check_eq(parse_line(line), Ok(Some(Statement::Command(command))))
}

fn sizes(line: &[u8], sectors: u32, entries: u32) -> Result<(), Fail> {
    let device = Statement::Device(Sizes { sectors, entries });
    check_eq(parse_line(line), Ok(Some(device)))
}

fn blank(line: &[u8]) -> Result<(), Fail> {
    check_eq(parse_line(line), Ok(None))
}

fn refuses(line: &[u8], reason: Reason) -> Result<(), Fail> {
    check_eq(parse_line(line), Err(reason))
}

#[test]
fn commands() -> Result<(), Fail> {
    says(b"format", Command::Format)?;
    says(b"open", Command::Open)?;
    says(b"begin", Command::Begin)?;
    says(b"finish", Command::Finish)?;
    says(b"publish", Command::Publish)?;
    says(b"abandon", Command::Abandon)?;
    says(b"power", Command::Power)
}

#[test]
fn words() -> Result<(), Fail> {
    says(b"add key data", Command::Add(b"key", b"data"))?;
    says(b"add \"\" \"\"", Command::Add(b"", b""))?;
    says(b"add \" \"\"\"", Command::Add(b"\"", b"\"\"\""))?;
    says(b"add a#b \xff", Command::Add(b"a#b", b"\xff"))?;
    says(b"get key", Command::Get(b"key"))?;
    says(b"get \"\"", Command::Get(b""))
}

#[test]
fn numbers() -> Result<(), Fail> {
    says(b"mark 0", Command::Mark(0))?;
    says(b"mark 4294967295", Command::Mark(4294967295))?;
    says(b"cut 7 all", Command::Cut(7, Tear::All))?;
    says(b"cut 0 nothing", Command::Cut(0, Tear::Nothing))?;
    says(b"scribble 1 2 3", Command::Scribble(1, 2, 3))?;
    sizes(b"device 11", 11, 1000)?;
    sizes(b"device 8388607 0", 8388607, 0)
}

#[test]
fn comments() -> Result<(), Fail> {
    blank(b"")?;
    blank(b"  ")?;
    blank(b"# open")?;
    blank(b"  #open")?;
    says(b"open #", Command::Open)?;
    says(b"add k v   # a b c d", Command::Add(b"k", b"v"))?;
    says(b"open  ", Command::Open)?;
    refuses(b"get #key", Reason::TooFewWords)
}

#[test]
fn refusals() -> Result<(), Fail> {
    refuses(b"Open", Reason::UnknownCommand)?;
    refuses(b"opens", Reason::UnknownCommand)?;
    refuses(b"open\r", Reason::UnknownCommand)?;
    refuses(b" open", Reason::SpaceTooMany)?;
    refuses(b"add k  v", Reason::SpaceTooMany)?;
    refuses(b"open now", Reason::TooManyWords)?;
    refuses(b"add key", Reason::TooFewWords)?;
    refuses(b"add a b c", Reason::TooManyWords)?;
    refuses(b"scribble 1 2 3 4", Reason::TooManyWords)?;
    refuses(b"device", Reason::TooFewWords)?;
    refuses(b"device 1 2 3", Reason::TooManyWords)
}

#[test]
fn refused_numbers() -> Result<(), Fail> {
    refuses(b"mark x", Reason::NotNumber)?;
    refuses(b"mark -1", Reason::NotNumber)?;
    refuses(b"mark +1", Reason::NotNumber)?;
    refuses(b"mark 01", Reason::NotNumber)?;
    refuses(b"mark \"\"", Reason::NotNumber)?;
    refuses(b"mark \xff", Reason::NotNumber)?;
    refuses(b"mark 4294967296", Reason::NumberTooLarge)?;
    refuses(b"device 8388608", Reason::NumberTooLarge)?;
    refuses(b"device 11 x", Reason::NotNumber)?;
    refuses(b"cut 1 half", Reason::NotTear)?;
    refuses(b"cut all 1", Reason::NotNumber)
}
