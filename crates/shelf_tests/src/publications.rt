//! What lookups give before and after publications, and beside a draft.

use crate::calls::*;
use checks::check_eq;
use device::device::WritableDevice;
use file::extents::Extent;
use memory::writing::{Budget, RootTear, WriteMemory};
use shelf::formatting::format;
use shelf::opening::open;
use stacks::over_memory::{CacheOverMarks, MarksOverCache, OverMemory};
use std::test::Fail;

const FORMER: [Record; 4] = [(b"a", b"1"), (b"b", b"2"), (b"a", b"3"), (b"", b"4")];

const NEXT: [Record; 3] = [(b"c", b"5"), (b"b", b""), (b"b", b"6")];

fn expect_nothing<D: WritableDevice>(d: &mut D, live: Extent) -> Result<(), Fail> {
    expect_data(d, live, b"a", &[])?;
    expect_data(d, live, b"", &[])
}

fn expect_former<D: WritableDevice>(d: &mut D, live: Extent) -> Result<(), Fail> {
    expect_data(d, live, b"a", &[b"1", b"3"])?;
    expect_data(d, live, b"b", &[b"2"])?;
    expect_data(d, live, b"", &[b"4"])?;
    expect_data(d, live, b"c", &[])
}

fn expect_next_file<D: WritableDevice>(d: &mut D, live: Extent) -> Result<(), Fail> {
    expect_data(d, live, b"c", &[b"5"])?;
    expect_data(d, live, b"b", &[b"", b"6"])?;
    expect_data(d, live, b"a", &[])?;
    expect_data(d, live, b"", &[])
}

/// Nothing, then the former file, then the next one, each also beside the draft of the one behind, in all its states.
fn expect_publications<D: WritableDevice>(d: &mut D) -> Result<(), Fail> {
    let shelf = format(d)?;
    expect_nothing(d, shelf.live())?;
    let shelf = publish_all(d, shelf, &FORMER)?;
    expect_former(d, shelf.live())?;
    let mut entries = [BLANK; 3];
    let mut draft = shelf.begin();
    for (key, data) in &NEXT {
        draft = done(draft.add(d, &mut entries, key, data))?;
        expect_former(d, draft.live())?;
    }
    let finished = done(draft.finish(d, &entries))?;
    expect_former(d, finished.live())?;
    let shelf = done(finished.publish(d))?;
    expect_next_file(d, shelf.live())?;
    let reopened = open(d)?;
    expect_next_file(d, reopened.live())?;
    let live = publish_all(d, reopened, &[])?.live();
    expect_nothing(d, live)
}

#[test]
fn on_memory() -> Result<(), Fail> {
    let mut bytes = [9; 5632];
    expect_publications(&mut WriteMemory::new(&mut bytes, Budget::Endless, RootTear::All))
}

#[test]
fn on_a_cache_over_marks() -> Result<(), Fail> {
    let mut bytes = [9; 5632];
    expect_publications(&mut CacheOverMarks::over(&mut bytes, Budget::Endless, RootTear::All))
}

#[test]
fn on_marks_over_a_cache() -> Result<(), Fail> {
    let mut bytes = [9; 5632];
    expect_publications(&mut MarksOverCache::over(&mut bytes, Budget::Endless, RootTear::All))
}

/// A draft that is given up, open or finished, leaves the live file, and a next draft stands in the same area.
#[test]
fn drafts_that_are_abandoned() -> Result<(), Fail> {
    let mut bytes = [9; 5632];
    let mut device = WriteMemory::new(&mut bytes, Budget::Endless, RootTear::All);
    let shelf = format(&mut device)?;
    let shelf = publish_all(&mut device, shelf, &FORMER)?;
    let mut entries = [BLANK];
    let draft = done(shelf.begin().add(&mut device, &mut entries, b"a", b"7"))?;
    let shelf = draft.abandon();
    expect_former(&mut device, shelf.live())?;
    let finished = done(shelf.begin().finish(&mut device, &[]))?;
    let shelf = finished.abandon();
    expect_former(&mut device, shelf.live())?;
    check_eq(shelf.live().start, 3072)?;
    let live = publish_all(&mut device, shelf, &NEXT)?.live();
    check_eq(live.start, 512)?;
    expect_next_file(&mut device, live)
}
