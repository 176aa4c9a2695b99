//! Checks the text that comes in on standard input. One line tells the outcome: `ok,records,bytes`, or `no,10,256,place`.
#![tactic(auto)]

use std::io;
use std::io::{Read, Write};
use text_writer::outcome::check_text;

fn main(rt: HostRuntime) -> io::Result<()> {
    let mut text = Vec::new(rt.alloc());
    rt.stdin().read_to_end(&mut text)?;
    let mut line = [0u8; 46];
    let n = check_text(&text, &mut line).unwrap();
    rt.stdout().write_all(&line[..n])
}
