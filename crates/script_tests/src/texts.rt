//! Whole texts: the script that is read, or the line that is refused.

use checks::check_eq;
use script::command::{Command, Sizes};
use script::reason::{Reason, ScriptError};
use script::whole::{Line, parse};
use std::alloc::Global;
use std::test::Fail;

#[test]
fn a_script(rt: HostRuntime) -> Result<(), Fail> {
    let text = b"# a shelf\n\ndevice 11 2\nformat\n\nadd k v # one\n";
    let script = parse(rt.alloc(), text)?;
    let sizes = Sizes {
        sectors: 11,
        entries: 2,
    };
    check_eq(script.sizes, sizes)?;
    let format = Line {
        number: 4,
        command: Command::Format,
    };
    let add = Line {
        number: 6,
        command: Command::Add(b"k", b"v"),
    };
    check_eq(script.lines.as_slice(), [format, add].as_slice())
}

#[test]
fn a_device_alone(rt: HostRuntime) -> Result<(), Fail> {
    let script = parse(rt.alloc(), b"device 9")?;
    check_eq(script.sizes.entries, 1000)?;
    check_eq(script.lines.len(), 0)
}

fn refuses(alloc: Global, text: &[u8], line: usize, reason: Reason) -> Result<(), Fail> {
    let fault = parse(alloc, text).map(|script| script.sizes);
    check_eq(fault, Err(ScriptError::Malformed(line, reason)))
}

#[test]
fn refused_texts(rt: HostRuntime) -> Result<(), Fail> {
    let alloc = rt.alloc();
    refuses(alloc, b"", 1, Reason::DeviceMissing)?;
    refuses(alloc, b"# device 11\n\n", 3, Reason::DeviceMissing)?;
    refuses(alloc, b"\nformat\ndevice 11\n", 2, Reason::DeviceNotFirst)?;
    refuses(
        alloc,
        b"device 11\nformat\ndevice 11\n",
        3,
        Reason::DeviceRepeated,
    )?;
    refuses(
        alloc,
        b"device 11\nformat\nadd k\nget\n",
        3,
        Reason::TooFewWords,
    )
}
