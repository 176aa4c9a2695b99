//! The line that tells the outcome of a check.

use checks::check_eq;
use std::test::Fail;
use text::fault::TextFault;
use text_writer::outcome::check_text;

fn tells(text: &[u8], expected: &[u8]) -> Result<(), Fail> {
    let mut line = [0u8; 46];
    let Ok(n) = check_text(text, &mut line) else {
        return Err(Fail::new("refused"));
    };
    check_eq(&line[..n], expected)
}

#[test]
fn outcomes() -> Result<(), Fail> {
    tells(b"\n", b"ok,0,0\n")?;
    tells(b"+10,3:0123456789->abc\n+0,0:->\n\n", b"ok,2,13\n")?;
    tells(b"", b"no,10,256,0\n")?;
    tells(b"+01,1:a->1", b"no,10,256,2\n")?;
    tells(b"+10,3:0123456789->abc\n+0,0:->\n", b"no,10,256,30\n")
}

#[test]
fn a_line_that_does_not_fit(rt: HostRuntime) {
    let mut line = [5u8; 6];
    assert_eq!(rt; check_text(b"\n", &mut line), Err(TextFault::Short(6)));
    assert_eq!(rt; line, [5u8; 6]);
    let mut line = [5u8; 7];
    assert_eq!(rt; check_text(b"\n", &mut line), Ok(7));
    assert_eq!(rt; line, *b"ok,0,0\n");
}
