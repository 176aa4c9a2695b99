//! Runs a script of shelf calls, which comes in on standard input, on memory. Each call of the shelf prints a line; of a malformed script nothing is run.
#![tactic(auto)]

use replaying::replay::replay;
use script::answer::{Answer, AnswerLine};
use script::command::Command;
use script::whole::parse;
use std::io::{BufWriter, Read, Write};
use std::process::ExitCode;
use telling::ending::end;

fn main(rt: HostRuntime) -> ExitCode {
    let outcome = run(&rt);
    end(&rt, "replay", outcome)
}

fn run(rt: &HostRuntime) -> anyhow::Result<ExitCode> {
    let alloc = rt.alloc();
    let mut text = Vec::new(alloc);
    rt.stdin().read_to_end(&mut text)?;
    let script = parse(alloc, &text)?;
    let answers = replay(alloc, &script)?;
    let mut out = BufWriter::new(alloc, rt.stdout())?;
    for (line, answer) in script.lines.iter().zip(answers) {
        let command = line.command;
        if is_told(&command, &answer) {
            writeln!(out, "{}", AnswerLine { command, answer })?;
        }
    }
    out.flush()?;
    Ok(ExitCode::SUCCESS)
}

/// Whether an answer is printed: that of a call, and any refusal. What becomes of the device between calls is no call.
fn is_told(command: &Command<'_>, answer: &Answer) -> bool {
    match command {
        Command::Mark(_) | Command::Cut(_, _) | Command::Power | Command::Scribble(_, _, _) => {
            matches!(answer, Answer::Refused(_))
        }
        _ => true,
    }
}
