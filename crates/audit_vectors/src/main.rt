//! Audits each file that is named, and prints its name and its line: files of two other makers, and damaged ones.
#![tactic(auto)]

use answering::input::audit_input;
use answering::line::answer_line;
use std::{env, fs, io};

fn main(rt: HostRuntime) -> io::Result<()> {
    let heap = rt.alloc();
    let names = env::args(&rt)?;
    for name in names.skip(1) {
        let file = fs::read(&rt, name.as_str())?;
        let told = answer_line(heap, audit_input(&file))?;
        print!(rt; "{name} {told}")?;
    }
    Ok(())
}
