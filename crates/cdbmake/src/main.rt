//! Makes a cdb file from the text on standard input: `cdbmake FILE TMP` writes TMP and then renames it to FILE.
#![tactic(auto)]

use anyhow::{Context, bail};
use building::entries::Entry;
use making::in_memory::make_in_memory;
use making::sizes::file_size;
use std::fs::File;
use std::io::{Read, Write};
use std::process::ExitCode;
use std::{env, fs, io};
use telling::ending::end;
use telling::refusal::Refusal;

fn main(rt: HostRuntime) -> ExitCode {
    let outcome = run(&rt);
    end(&rt, "cdbmake", outcome)
}

fn run(rt: &HostRuntime) -> anyhow::Result<ExitCode> {
    let mut args = env::args(rt).context("the arguments are no text")?.skip(1);
    let (Some(file), Some(tmp), None) = (args.next(), args.next(), args.next()) else {
        bail!("usage: cdbmake FILE TMP");
    };
    let mut text = Vec::new(rt.alloc());
    rt.stdin()
        .read_to_end(&mut text)
        .context("reading standard input")?;
    let size = file_size(&text).map_err(Refusal::new)?;
    let mut memory = vec![in rt.alloc(); 0u8; size.memory()]?;
    let mut entries = vec![in rt.alloc(); Entry { hash: 0, place: 0 }; size.records]?;
    let made = make_in_memory(&mut memory, &mut entries, &text).map_err(Refusal::new)?;
    write(rt, tmp.as_str(), made).context(format_args!("writing {tmp}"))?;
    fs::rename(rt, tmp.as_str(), file.as_str()).context(format_args!("renaming {tmp} to {file}"))?;
    Ok(ExitCode::SUCCESS)
}

/// Writes a file, and waits until it is stored.
fn write(rt: &HostRuntime, name: &str, bytes: &[u8]) -> io::Result<()> {
    let mut file = File::create(rt, name)?;
    file.write_all(bytes)?;
    file.sync_all()
}
