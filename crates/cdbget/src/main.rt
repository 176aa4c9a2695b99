//! Looks a key up in the cdb file on standard input: writes the data of its first record to standard output, or of the record
//! after so many others of the key. With no such record it writes nothing and ends with status 1.
#![tactic(auto)]

use anyhow::{Context, bail};
use std::env;
use std::io::{Read, Write};
use std::process::ExitCode;
use telling::ending::end;
use telling::refusal::Refusal;
use whole_files::whole::WholeFile;

fn main(rt: HostRuntime) -> ExitCode {
    let outcome = run(&rt);
    end(&rt, "cdbget", outcome)
}

fn run(rt: &HostRuntime) -> anyhow::Result<ExitCode> {
    let mut args = env::args(rt).context("the arguments are no text")?.skip(1);
    let (Some(key), number, None) = (args.next(), args.next(), args.next()) else {
        bail!("usage: cdbget KEY [N]");
    };
    let others = match number {
        None => 0,
        Some(text) => text
            .parse::<u32>()
            .context(format_args!("{text} is no number of records"))?,
    };
    let mut input = Vec::new(rt.alloc());
    rt.stdin().read_to_end(&mut input)?;
    let file = WholeFile::new(input)?;
    let found = file.get(key.as_bytes(), others).map_err(Refusal::new)?;
    let Some(data) = found else {
        return Ok(ExitCode::FAILURE);
    };
    rt.stdout().write_all(data)?;
    Ok(ExitCode::SUCCESS)
}
