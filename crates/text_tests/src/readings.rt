//! Files in memory, read record by record.

use checks::{check_eq, put_word};
use faults::file::FileFault;
use records::placed::PlacedRecord;
use records::reader::RecordReader;
use std::test::Fail;

const BLANK: PlacedRecord<'static> = PlacedRecord {
    place: 0,
    key: b"",
    data: b"",
    data_place: 0,
};

/// A record at 2048 with key `ab` and data `c`, an empty one at 2059, one at 2067 with key `` and data `\n->`, and table 0 at 2078.
fn three() -> Result<[u8; 2090], Fail> {
    let mut file = [0u8; 2090];
    put_word(&mut file, 0, 2078)?;
    put_word(&mut file, 2048, 2)?;
    put_word(&mut file, 2052, 1)?;
    file[2056..2059].copy_from_slice(b"abc");
    put_word(&mut file, 2071, 3)?;
    file[2075..2078].copy_from_slice(b"\n->");
    Ok(file)
}

const FIRST: PlacedRecord<'static> = PlacedRecord {
    place: 2048,
    key: b"ab",
    data: b"c",
    data_place: 2058,
};

const SECOND: PlacedRecord<'static> = PlacedRecord {
    place: 2059,
    key: b"",
    data: b"",
    data_place: 2067,
};

const THIRD: PlacedRecord<'static> = PlacedRecord {
    place: 2067,
    key: b"",
    data: b"\n->",
    data_place: 2075,
};

#[test]
fn records_in_order_then_the_end_again() -> Result<(), Fail> {
    let file = three()?;
    let mut reader = RecordReader::new(&file);
    check_eq(reader.next(), Ok(Some(FIRST)))?;
    check_eq(reader.next(), Ok(Some(SECOND)))?;
    check_eq(reader.next(), Ok(Some(THIRD)))?;
    check_eq(reader.next(), Ok(None))?;
    check_eq(reader.next(), Ok(None))
}

#[test]
fn a_list_filled_in_turns(rt: HostRuntime) -> Result<(), Fail> {
    let file = three()?;
    let mut reader = RecordReader::new(&file);
    let mut two = [BLANK; 2];
    assert_eq!(rt; reader.fill(&mut []), Ok(0));
    assert_eq!(rt; reader.fill(&mut two), Ok(2));
    assert_eq!(rt; two, [FIRST, SECOND]);
    assert_eq!(rt; reader.fill(&mut two), Ok(1));
    assert_eq!(rt; two, [THIRD, SECOND]);
    assert_eq!(rt; reader.fill(&mut two), Ok(0));
    Ok(())
}

#[test]
fn headers_that_are_refused(rt: HostRuntime) -> Result<(), Fail> {
    let zeros = [0u8; 2090];
    let mut reader = RecordReader::new(&zeros[0..2047]);
    check_eq(reader.next(), Err(FileFault::Short(2047)))?;
    let mut reader = RecordReader::new(&zeros[0..2048]);
    check_eq(reader.next(), Err(FileFault::Entry(0)))?;
    check_eq(reader.next(), Err(FileFault::Entry(0)))?;
    let mut file = zeros;
    put_word(&mut file, 0, 2047)?;
    check_eq(RecordReader::new(&file).next(), Err(FileFault::Entry(0)))?;
    put_word(&mut file, 0, 2091)?;
    check_eq(RecordReader::new(&file).next(), Err(FileFault::Entry(0)))?;
    put_word(&mut file, 0, 2048)?;
    check_eq(RecordReader::new(&file).next(), Ok(None))?;
    assert_eq!(rt;
        RecordReader::new(&zeros).fill(&mut []),
        Err(FileFault::Entry(0))
    );
    Ok(())
}

#[test]
fn a_record_that_passes_table_0(rt: HostRuntime) -> Result<(), Fail> {
    let mut file = three()?;
    put_word(&mut file, 2071, 4)?;
    let mut reader = RecordReader::new(&file);
    let mut all = [BLANK; 3];
    assert_eq!(rt; reader.fill(&mut all), Err(FileFault::Record(2067)));
    assert_eq!(rt; all, [BLANK; 3]);
    check_eq(reader.next(), Ok(Some(FIRST)))?;
    check_eq(reader.next(), Ok(Some(SECOND)))?;
    check_eq(reader.next(), Err(FileFault::Record(2067)))?;
    check_eq(reader.next(), Err(FileFault::Record(2067)))
}

#[test]
fn a_record_of_the_largest_lengths(rt: HostRuntime) -> Result<(), Fail> {
    let mut file = three()?;
    put_word(&mut file, 2067, 4294967295)?;
    put_word(&mut file, 2071, 4294967295)?;
    let mut all = [BLANK; 3];
    assert_eq!(rt; RecordReader::new(&file).fill(&mut all[0..2]), Ok(2));
    assert_eq!(rt;
        RecordReader::new(&file).fill(&mut all),
        Err(FileFault::Record(2067))
    );
    Ok(())
}

#[test]
fn a_record_whose_words_do_not_fit() -> Result<(), Fail> {
    let mut file = three()?;
    put_word(&mut file, 0, 2085)?;
    let mut reader = RecordReader::new(&file);
    check_eq(reader.next(), Ok(Some(FIRST)))?;
    check_eq(reader.next(), Ok(Some(SECOND)))?;
    check_eq(reader.next(), Ok(Some(THIRD)))?;
    check_eq(reader.next(), Err(FileFault::Record(2078)))
}
