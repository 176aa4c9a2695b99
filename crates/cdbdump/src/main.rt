//! Writes the records of the cdb file on standard input as text to standard output.
#![tactic(auto)]

use std::io::{Read, Write};
use std::process::ExitCode;
use telling::ending::end;
use whole_files::whole::WholeFile;

fn main(rt: HostRuntime) -> ExitCode {
    let outcome = run(&rt);
    end(&rt, "cdbdump", outcome)
}

fn run(rt: &HostRuntime) -> anyhow::Result<ExitCode> {
    let mut file = Vec::new(rt.alloc());
    rt.stdin().read_to_end(&mut file)?;
    let text = WholeFile::new(file)?.dump(rt.alloc())?;
    rt.stdout().write_all(&text)?;
    Ok(ExitCode::SUCCESS)
}
