//! Audits the cdb file on standard input, and prints one line.
#![tactic(auto)]

use answering::input::audit_input;
use answering::line::answer_line;
use std::io;
use std::io::Read;

fn main(rt: HostRuntime) -> io::Result<()> {
    let heap = rt.alloc();
    // One byte past the limit is enough to see that an input is too long.
    let mut input = Vec::new(heap);
    rt.stdin().take(61441).read_to_end(&mut input)?;
    let told = answer_line(heap, audit_input(&input))?;
    print!(rt; "{told}")
}
