//! Texts, each with the number of its records or the place where it is refused.

use crate::lists::record;
use checks::check_eq;
use std::test::Fail;
use text::fault::TextFault;
use text::reader::TextReader;
use text::whole::tally;

fn counts(text: &[u8], records: usize) -> Result<(), Fail> {
    check_eq(tally(text).map(|counted| counted.records), Ok(records))
}

fn refuses(text: &[u8], place: usize) -> Result<(), Fail> {
    check_eq(tally(text), Err(TextFault::Malformed(place)))
}

#[test]
fn verdicts_0() -> Result<(), Fail> {
    counts(b"\n", 0)?;
    refuses(b"", 0)?;
    counts(b"+1,1:a->1\n\n", 1)?;
    counts(b"+0,0:->\n\n", 1)?;
    refuses(b"+01,1:a->1\n\n", 2)?;
    refuses(b"+1,1:a->1\n", 10)?;
    refuses(b"+1,1:a->1\n\nx", 11)?;
    refuses(b"+1,1:a->1\n\n\n", 11)?;
    refuses(b"+1,1:a-1\n\n", 7)?;
    Ok(())
}

#[test]
fn verdicts_1() -> Result<(), Fail> {
    refuses(b"+1,1:a->1x\n\n", 9)?;
    refuses(b"+,1:a->1\n\n", 1)?;
    refuses(b"+1:a->1\n\n", 2)?;
    refuses(b"+1,:a->1\n\n", 3)?;
    refuses(b"+4294967296,1:a->1\n\n", 10)?;
    refuses(b"+4294967295,1:a->1\n\n", 20)?;
    refuses(b"+42949672950,1:a->1\n\n", 11)?;
    refuses(b"+00,1:->1\n\n", 2)?;
    counts(b"+0,1:->1\n\n", 1)?;
    Ok(())
}

#[test]
fn verdicts_2() -> Result<(), Fail> {
    counts(b"+2,3:\n\n->->\n\n\n", 1)?;
    refuses(b"-1,1:a->1\n\n", 0)?;
    refuses(b"+1,1;a->1\n\n", 4)?;
    refuses(b"+1,2:a->1\n", 10)?;
    refuses(b"+2,1:a->1\n\n", 7)?;
    counts(b"+1,1:a->1\n+1,1:b->2\n\n", 2)?;
    refuses(b"+1,1:a->1\n+1,x:b->2\n\n", 13)?;
    Ok(())
}

#[test]
fn lengths_at_the_limit() -> Result<(), Fail> {
    refuses(b"+4294967295,0:", 14)?;
    refuses(b"+4294967296,0:", 10)?;
    refuses(b"+0,4294967295:->", 16)?;
    refuses(b"+0,4294967296:->", 12)?;
    refuses(b"+0,9999999999:->", 12)
}

#[test]
fn cut_at_every_byte() -> Result<(), Fail> {
    let text = b"+3,12:a\n>->->+0,0:->\n\n\xff\n+0,2:->\n\n\n\n";
    for k in 0..text.len() {
        refuses(&text[0..k], k)?;
    }
    counts(text, 2)
}

/// A text in which one byte is another is refused at that byte or later, or is a text of other records.
#[test]
fn no_byte_of_the_frame_may_change() -> Result<(), Fail> {
    let text = b"+1,1:a->1\n\n";
    for k in 0..text.len() {
        let mut other = *text;
        other[k] = b'x';
        if k == 5 || k == 8 {
            counts(&other, 1)?;
        } else {
            refuses(&other, k)?;
        }
    }
    Ok(())
}

#[test]
fn tokens_in_order_then_the_end_again_and_again() -> Result<(), Fail> {
    let mut reader = TextReader::new(b"+3,5:one->Hello\n+0,0:->\n+2,4:->->\n->\n\n\n");
    check_eq(reader.next(), Ok(Some(record(b"one", b"Hello"))))?;
    check_eq(reader.next(), Ok(Some(record(b"", b""))))?;
    check_eq(reader.next(), Ok(Some(record(b"->", b"\n->\n"))))?;
    check_eq(reader.next(), Ok(None))?;
    check_eq(reader.next(), Ok(None))?;
    check_eq(reader.next(), Ok(None))
}

#[test]
fn a_refused_reader_stays_put() -> Result<(), Fail> {
    let mut reader = TextReader::new(b"+1,1:a->1\n+1,1:b-2\n\n");
    check_eq(reader.next(), Ok(Some(record(b"a", b"1"))))?;
    check_eq(reader.next(), Err(TextFault::Malformed(17)))?;
    check_eq(reader.next(), Err(TextFault::Malformed(17)))?;
    let mut reader = TextReader::new(b"+1,1:a->1\n\n+");
    check_eq(reader.next(), Ok(Some(record(b"a", b"1"))))?;
    check_eq(reader.next(), Err(TextFault::Malformed(11)))?;
    check_eq(reader.next(), Err(TextFault::Malformed(11)))
}
