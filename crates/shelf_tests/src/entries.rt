//! Entry memory that is short, and entries that are scribbled over.

use crate::calls::*;
use auditing::auditing::audit;
use building::entries::Entry;
use checks::check_eq;
use faults::report::Report;
use file::extents::Extent;
use memory::writing::{Budget, RootTear};
use shelf::formatting::format;
use shelf::opening::open;
use stacks::over_memory::{CacheOverMarks, OverMemory};
use std::test::Fail;

#[test]
fn one_entry_short() -> Result<(), Fail> {
    let mut bytes = [0; 5632];
    let mut device = CacheOverMarks::over(&mut bytes, Budget::Endless, RootTear::All);
    let draft = format(&mut device)?.begin();
    let mut short = [BLANK];
    let draft = done(draft.add(&mut device, &mut short, b"a", b"1"))?;
    let first = short[0];
    let draft = refused(
        draft.add(&mut device, &mut short, b"a", b"2"),
        Report::bare(24),
    )?;
    check_eq(short, [first])?;
    let mut entries = [first, BLANK];
    let draft = done(draft.add(&mut device, &mut entries, b"a", b"2"))?;
    let draft = refused(draft.finish(&mut device, &short), Report::bare(24))?;
    let finished = done(draft.finish(&mut device, &entries))?;
    let live = done(finished.publish(&mut device))?.live();
    expect_data(&mut device, live, b"a", &[b"1", b"2"])
}

/// The entries of three records, `a` twice at 2048 and 2068 and `b` at 2058, in the order of their places.
const WRITTEN: [Entry; 3] = [
    Entry {
        hash: 177604,
        place: 2048,
    },
    Entry {
        hash: 177607,
        place: 2058,
    },
    Entry {
        hash: 177604,
        place: 2068,
    },
];

/// Over a live file of one record, a draft of three; entries are scribbled over before the finish. The publish must refuse by this rule, and the live file must stay.
fn expect_broken(scribbled: &[Entry; 3], want: Report) -> Result<(), Fail> {
    let mut bytes = [0; 5632];
    let mut device = CacheOverMarks::over(&mut bytes, Budget::Endless, RootTear::All);
    let shelf = format(&mut device)?;
    let draft = publish_all(&mut device, shelf, &[(b"a", b"old")])?.begin();
    let mut entries = [BLANK; 3];
    let draft = done(draft.add(&mut device, &mut entries, b"a", b"1"))?;
    let draft = done(draft.add(&mut device, &mut entries, b"b", b"2"))?;
    let draft = done(draft.add(&mut device, &mut entries, b"a", b"3"))?;
    check_eq(entries, WRITTEN)?;
    let finished = done(draft.finish(&mut device, scribbled))?;
    let Some(finished) = refused(finished.publish(&mut device), want)? else {
        return Err(Fail::new("the draft is gone"));
    };
    let live = finished.abandon().live();
    check_eq(live, Extent::new(3072, 2048 + 12 + 16)?)?;
    expect_data(&mut device, live, b"a", &[b"old"])?;
    check_eq(open(&mut device)?.live(), live)?;
    check_eq(audit(&mut device, live)?.records, 1)
}

/// A record is not met under another hash, at a place beside its own, or where another record's entry stands twice; and two records
/// of one key are met in the other order.
#[test]
fn entries_scribbled_over() -> Result<(), Fail> {
    let [first, middle, last] = WRITTEN;
    let mut other_hash = first;
    other_hash.hash += 256;
    expect_broken(&[other_hash, middle, last], Report::in_table(4, 196, 2048))?;
    let mut other_place = middle;
    other_place.place += 1;
    expect_broken(&[first, other_place, last], Report::in_table(4, 199, 2058))?;
    expect_broken(&[first, middle, middle], Report::in_table(4, 196, 2068))?;
    expect_broken(&[last, middle, first], Report::in_table(8, 196, 2068))
}

/// The entries as the adds left them are published, so the refusals above come from the scribbling.
#[test]
fn entries_left_as_they_were() -> Result<(), Fail> {
    let mut bytes = [0; 5632];
    let mut device = CacheOverMarks::over(&mut bytes, Budget::Endless, RootTear::All);
    let shelf = format(&mut device)?;
    let shelf = publish_all(
        &mut device,
        shelf,
        &[(b"a", b"1"), (b"b", b"2"), (b"a", b"3")],
    )?;
    check_eq(audit(&mut device, shelf.live())?.records, 3)?;
    expect_data(&mut device, shelf.live(), b"a", &[b"1", b"3"])
}
