//! How many sectors there must be, and what fits into an area.

use crate::calls::*;
use checks::check_eq;
use faults::report::Report;
use file::extents::Extent;
use memory::writing::{Budget, RootTear, WriteMemory};
use shelf::fault::ShelfFault;
use shelf::formatting::format;
use stacks::over_memory::{CacheOverMarks, MarksOverCache, OverMemory};
use std::test::Fail;

/// Bytes of keys and data.
const LETTERS: [u8; 489] = [b'x'; 489];

/// With 11 sectors an area has 2,560 bytes. A first record of `key` and `data` bytes, which are 488, must fit, be found and leave no room for a record more.
fn expect_fit(key: usize, data: usize) -> Result<(), Fail> {
    let (key, data) = (&LETTERS[..key.min(489)], &LETTERS[..data.min(489)]);
    let mut bytes = [0; 5632];
    let mut device = CacheOverMarks::over(&mut bytes, Budget::Endless, RootTear::All);
    let mut entries = [BLANK; 2];
    let draft = format(&mut device)?.begin();
    let draft = done(draft.add(&mut device, &mut entries, key, data))?;
    let draft = refused(
        draft.add(&mut device, &mut entries, b"", b""),
        Report::bare(25),
    )?;
    let finished = done(draft.finish(&mut device, &entries))?;
    let live = done(finished.publish(&mut device))?.live();
    check_eq(live, Extent::new(3072, 2560)?)?;
    expect_data(&mut device, live, key, &[data])
}

/// A first record of `key` and `data` bytes must find the draft full.
fn expect_full(key: usize, data: usize) -> Result<(), Fail> {
    let (key, data) = (&LETTERS[..key.min(489)], &LETTERS[..data.min(489)]);
    let mut bytes = [0; 5632];
    let mut device = MarksOverCache::over(&mut bytes, Budget::Endless, RootTear::All);
    let mut entries = [BLANK; 2];
    let draft = format(&mut device)?.begin();
    let draft = refused(
        draft.add(&mut device, &mut entries, key, data),
        Report::bare(25),
    )?;
    check_eq(entries, [BLANK; 2])?;
    done(draft.add(&mut device, &mut entries, b"", b""))?;
    Ok(())
}

#[test]
fn eleven_sectors_take_488_bytes() -> Result<(), Fail> {
    expect_fit(0, 488)?;
    expect_fit(488, 0)?;
    expect_fit(200, 288)
}

#[test]
fn eleven_sectors_do_not_take_489_bytes() -> Result<(), Fail> {
    expect_full(0, 489)?;
    expect_full(489, 0)?;
    expect_full(201, 288)
}

#[test]
fn eight_sectors_are_too_few() -> Result<(), Fail> {
    let mut bytes = [7; 4096];
    let mut device = WriteMemory::new(&mut bytes, Budget::Endless, RootTear::All);
    check_eq(format(&mut device).err(), Some(ShelfFault::Small))?;
    check_eq(Report::from(ShelfFault::Small), Report::bare(28))?;
    check_eq(bytes, [7; 4096])
}

/// With 9 sectors an area has 2,048 bytes, which are a header: no record fits, and the file without records does.
#[test]
fn nine_sectors_take_no_record() -> Result<(), Fail> {
    let mut bytes = [7; 4608];
    let mut device = WriteMemory::new(&mut bytes, Budget::Endless, RootTear::All);
    let shelf = format(&mut device)?;
    let live = shelf.live();
    check_eq(live, Extent::new(512, 2048)?)?;
    let mut entries = [BLANK];
    let draft = refused(
        shelf.begin().add(&mut device, &mut entries, b"", b""),
        Report::bare(25),
    )?;
    let finished = done(draft.finish(&mut device, &[]))?;
    let live = done(finished.publish(&mut device))?.live();
    check_eq(live, Extent::new(2560, 2048)?)?;
    expect_data(&mut device, live, b"", &[])
}
