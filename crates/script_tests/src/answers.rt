//! Answers, as they are printed.

use checks::check_eq;
use faults::report::Report;
use script::answer::{Answer, AnswerLine};
use script::command::Command;
use script::reason::{Reason, ScriptError};
use std::alloc::Global;
use std::test::Fail;

fn prints(alloc: Global, command: Command<'_>, answer: Answer, line: &str) -> Result<(), Fail> {
    let told = AnswerLine { command, answer };
    let text = format!(in alloc; "{told}")?;
    check_eq(text.as_bytes(), line.as_bytes())
}

#[test]
fn answers(rt: HostRuntime) -> Result<(), Fail> {
    let alloc = rt.alloc();
    prints(alloc, Command::Format, Answer::Done, "format: done")?;
    prints(
        alloc,
        Command::Publish,
        Answer::Unfit,
        "publish: does not build",
    )?;
    let full = Answer::Refused(Report::bare(25));
    prints(
        alloc,
        Command::Add(b"k", b"v"),
        full,
        "add: refused 25 256 0",
    )?;
    prints(
        alloc,
        Command::Get(b"k"),
        Answer::Data(Vec::new(alloc)),
        "get: none",
    )
}

#[test]
fn data(rt: HostRuntime) -> Result<(), Fail> {
    let alloc = rt.alloc();
    let mut found = Vec::new(alloc);
    found.push(Vec::from_slice(alloc, b"one")?)?;
    found.push(Vec::new(alloc))?;
    found.push(Vec::from_slice(alloc, b"#\"\\ ~\x7f\xff\n")?)?;
    prints(
        alloc,
        Command::Get(b"k"),
        Answer::Data(found),
        "get: one \"\" #\"\\x5c\\x20~\\x7f\\xff\\x0a",
    )
}

#[test]
fn faults(rt: HostRuntime) -> Result<(), Fail> {
    let fault = ScriptError::Malformed(3, Reason::TooFewWords);
    let text = format!(in rt.alloc(); "{fault}")?;
    check_eq(text.as_bytes(), b"line 3: too few words".as_slice())
}
