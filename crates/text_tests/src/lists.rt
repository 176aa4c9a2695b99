//! Record lists, read from texts and written as texts.

use checks::check_eq;
use faults::report::Report;
use std::array;
use std::test::Fail;
use text::fault::TextFault;
use text::lent::LentRecord;
use text::whole::read_records;
use text_writer::writing::write_text;

pub fn record<'a>(key: &'a [u8], data: &'a [u8]) -> LentRecord<'a> {
    LentRecord { key, data }
}

fn every_byte() -> [u8; 256] {
    array::from_fn(|i| (i % 256) as u8)
}

/// Three records, the middle one empty, are written and read again.
fn come_back<'a>(
    first: LentRecord<'a>,
    middle: LentRecord<'a>,
    last: LentRecord<'a>,
) -> Result<(), Fail> {
    let mut buffer = [7u8; 600];
    check_eq(write_text(&[first, middle, last], &mut buffer), Ok(557))?;
    check_eq(buffer[557], 7)?;
    let blank = record(b"", b"");
    let mut read = [blank; 4];
    check_eq(read_records(&buffer[0..557], &mut read), Ok(3))?;
    check_eq(read[0], first)?;
    check_eq(read[1], blank)?;
    check_eq(read[2], last)?;
    check_eq(read[3], blank)
}

#[test]
fn every_byte_comes_back() -> Result<(), Fail> {
    let key = every_byte();
    let mut data = every_byte();
    data.reverse();
    come_back(
        record(&key, b"\n->\n\n"),
        record(b"", b""),
        record(b"+1,1:a->1\n", &data),
    )
}

#[test]
fn the_text_of_no_records(rt: HostRuntime) {
    let mut buffer = [1u8; 2];
    assert_eq!(rt; write_text(&[], &mut buffer), Ok(1));
    assert_eq!(rt; buffer, [b'\n', 1]);
    assert_eq!(rt;
        write_text(&[], &mut buffer[0..0]),
        Err(TextFault::Short(0))
    );
    assert_eq!(rt; read_records(b"\n", &mut []), Ok(0));
}

#[test]
fn a_buffer_that_is_too_short_stays(rt: HostRuntime) {
    let records = [record(b"a", b"1"), record(b"b", b"22")];
    let text = b"+1,1:a->1\n+1,2:b->22\n\n";
    for room in 0..text.len() {
        let mut buffer = [9u8; 22];
        assert!(rt; room <= 22);
        assert_eq!(rt;
            write_text(&records, &mut buffer[..room]),
            Err(TextFault::Short(room))
        );
        assert_eq!(rt; buffer, [9u8; 22]);
    }
    let mut buffer = [9u8; 23];
    assert_eq!(rt; write_text(&records, &mut buffer), Ok(22));
    assert_eq!(rt; &buffer[..22], &text[..22]);
    assert_eq!(rt; buffer[22], 9);
}

#[test]
fn a_list_that_is_too_short_stays(rt: HostRuntime) {
    let text = b"+1,1:a->1\n+1,2:b->22\n\n";
    let mut one = [record(b"k", b"d")];
    assert_eq!(rt; read_records(text, &mut one), Err(TextFault::Short(1)));
    assert_eq!(rt; one, [record(b"k", b"d")]);
    assert_eq!(rt;
        read_records(b"+1,1:a->1\n+1,2:b->22\n", &mut one),
        Err(TextFault::Malformed(21))
    );
    assert_eq!(rt; one, [record(b"k", b"d")]);
    let mut two = [record(b"", b""); 2];
    assert_eq!(rt; read_records(text, &mut two), Ok(2));
    assert_eq!(rt; two, [record(b"a", b"1"), record(b"b", b"22")]);
}

fn tells(fault: TextFault, number: u32, place: u64) -> Result<(), Fail> {
    check_eq(Report::from(fault), Report::placed(number, place))
}

#[test]
fn what_is_refused_is_told() -> Result<(), Fail> {
    tells(TextFault::Malformed(2), 10, 2)?;
    tells(TextFault::Short(9), 27, 9)?;
    tells(TextFault::Long, 27, 4294967295)
}
