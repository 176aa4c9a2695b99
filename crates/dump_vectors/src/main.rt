//! Dumps files of two other makers, of which the texts are known, and damaged files, and tells what came of it.
#![tactic(auto)]

use anyhow::bail;
use std::fs;
use whole_files::whole::WholeFile;

fn main(rt: HostRuntime) -> anyhow::Result<()> {
    for name in [
        "none",
        "one",
        "repeat",
        "collide",
        "services",
        "subscribers",
    ] {
        dump_back(&rt, name)?;
    }
    for name in [
        "made-1-19",
        "made-2-13",
        "made-3-1",
        "made-4-22",
        "made-5-16",
        "made-6-12",
        "made-7-11",
        "made-8-39",
    ] {
        refuse(&rt, name)?;
    }
    Ok(())
}

fn read(rt: &HostRuntime, name: &str) -> anyhow::Result<WholeFile> {
    let file = fs::read(rt, format!(in rt.alloc(); "{name}.cdb")?)?;
    Ok(WholeFile::new(file)?)
}

/// A file that was made of a text: its dump is that text.
fn dump_back(rt: &HostRuntime, name: &str) -> anyhow::Result<()> {
    let text = fs::read(rt, format!(in rt.alloc(); "{name}.txt")?)?;
    let dumped = read(rt, name)?.dump(rt.alloc())?;
    if dumped.as_slice() != text.as_slice() {
        bail!("{name}: the text does not come back");
    }
    Ok(println!(rt; "{name}: same text")?)
}

/// A damaged file: how its dump is refused.
fn refuse(rt: &HostRuntime, name: &str) -> anyhow::Result<()> {
    match read(rt, name)?.dump(rt.alloc()) {
        Ok(_text) => bail!("{name}: it is dumped"),
        Err(fault) => Ok(println!(rt; "{name}: {fault}")?),
    }
}
