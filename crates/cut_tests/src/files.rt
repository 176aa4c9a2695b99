//! What a live file must hold: exactly some records.

use crate::publishing::Record;
use auditing::auditing::audit;
use checks::{check, check_eq};
use device::device::Device;
use file::extents::Extent;
use lookup::calls::{fetch, next, start};
use lookup::cursors::Cursor;
use records::reader::RecordReader;
use std::test::Fail;

/// The longest file that a device of 17 sectors takes.
const ROOM: usize = 4096;

/// The file of an extent must be lawful, and have exactly these records: as it is read, and by lookups of every key.
pub(crate) fn expect_file<D: Device>(
    d: &mut D,
    live: Extent,
    records: &[Record<'_>],
    keys: &[&[u8]],
) -> Result<(), Fail> {
    check_eq(audit(d, live)?.records as usize, records.len())?;
    expect_list(d, live, records)?;
    for key in keys {
        expect_data(d, live, key, records)?;
    }
    Ok(())
}

/// The bytes of the file must be read as these records, in this order, and none more.
fn expect_list<D: Device>(d: &mut D, live: Extent, records: &[Record<'_>]) -> Result<(), Fail> {
    let mut bytes = [0; ROOM];
    let mut place = live.start;
    for sector in bytes.chunks_exact_mut(512) {
        d.read(place, sector)?;
        place = place.saturating_add(512);
    }
    let mut reader = RecordReader::new(&bytes[..(live.len as usize).min(ROOM)]);
    for (key, data) in records {
        let Some(read) = reader.next()? else {
            return Err(Fail::new("a record is missing"));
        };
        check_eq(read.key, *key)?;
        check_eq(read.data, *data)?;
    }
    check(reader.next()?.is_none())
}

/// A lookup of the key must give the data of its records in turn, then none.
fn expect_data<D: Device>(
    d: &mut D,
    live: Extent,
    key: &[u8],
    records: &[Record<'_>],
) -> Result<(), Fail> {
    let mut cursor = start(d, live, key)?;
    for (other, data) in records {
        if *other == key {
            expect_next(d, live, &mut cursor, key, data)?;
        }
    }
    check(next(d, &mut cursor, key)?.is_none())
}

/// The next data, of at most 600 bytes, must be these.
// As in `shelf_tests`: a crate for this one helper would be longer, and `checks` rests on no lookup, since tests of lower crates use it.
fn expect_next<D: Device>(
    d: &mut D,
    live: Extent,
    cursor: &mut Cursor,
    key: &[u8],
    want: &[u8],
) -> Result<(), Fail> {
    let Some(found) = next(d, cursor, key)? else {
        return Err(Fail::new("data are missing"));
    };
    check_eq(found.len as usize, want.len())?;
    let mut buffer = [0; 600];
    let n = want.len().min(600);
    fetch(d, live, found, 0, &mut buffer[..n])?;
    check_eq(&buffer[..n], want)
}
