//! Calls on a shelf that must be done or refused, and the data that a file must give.

use building::entries::Entry;
use checks::{check, check_eq};
use device::device::{Device, WritableDevice};
use faults::report::Report;
use file::extents::Extent;
use lookup::calls::{fetch, next, start};
use lookup::cursors::Cursor;
use shelf::refusals::Refused;
use shelf::states::Shelf;
use std::test::Fail;

/// A key and its data.
pub(crate) type Record = (&'static [u8], &'static [u8]);

/// An entry that no add has set.
pub(crate) const BLANK: Entry = Entry { hash: 0, place: 0 };

/// What a call that must be done gives.
pub(crate) fn done<T: Drop, S: Drop>(answer: Result<T, Refused<S>>) -> Result<T, Fail> {
    answer.map_err(|refused| Fail::from(refused.fault))
}

/// What a call that must be refused, and told so, gives back.
pub(crate) fn refused<T: Drop, S: Drop>(
    answer: Result<T, Refused<S>>,
    want: Report,
) -> Result<S, Fail> {
    match answer {
        Ok(_) => Err(Fail::new("done, and not refused")),
        Err(Refused { fault, draft }) => {
            check_eq(Report::from(fault), want)?;
            Ok(draft)
        }
    }
}

/// Publishes at most eight records.
pub(crate) fn publish_all<D: WritableDevice>(
    d: &mut D,
    shelf: Shelf,
    records: &[Record],
) -> Result<Shelf, Fail> {
    let mut entries = [BLANK; 8];
    let mut draft = shelf.begin();
    for (key, data) in records {
        draft = done(draft.add(d, &mut entries, key, data))?;
    }
    let finished = done(draft.finish(d, &entries))?;
    done(finished.publish(d))
}

/// A lookup of the key must give these data in turn, then none.
pub(crate) fn expect_data<D: Device>(
    d: &mut D,
    live: Extent,
    key: &[u8],
    want: &[&[u8]],
) -> Result<(), Fail> {
    let mut cursor = start(d, live, key)?;
    for data in want {
        expect_next(d, live, &mut cursor, key, data)?;
    }
    check(next(d, &mut cursor, key)?.is_none())
}

/// The next data, of at most 600 bytes, must be these.
fn expect_next<D: Device>(
    d: &mut D,
    live: Extent,
    cursor: &mut Cursor,
    key: &[u8],
    want: &[u8],
) -> Result<(), Fail> {
    let Some(found) = next(d, cursor, key)? else {
        return Err(Fail::new("no data"));
    };
    check_eq(found.len as usize, want.len())?;
    let mut buffer = [0; 600];
    let n = want.len().min(600);
    fetch(d, live, found, 0, &mut buffer[..n])?;
    check_eq(&buffer[..n], want)
}
