//! Roots that are lawful and roots that are not, and devices of another size.

use crate::calls::*;
use checks::check_eq;
use device::device::WritableDevice;
use faults::report::Report;
use memory::writing::{Budget, RootTear, WriteMemory};
use shelf::fault::ShelfFault;
use shelf::formatting::format;
use shelf::opening::open;
use shelf::states::Shelf;
use std::test::Fail;

/// How an open is refused, if it is.
fn refusal_of(opened: Result<Shelf, ShelfFault>) -> Option<Report> {
    opened.err().map(Report::from)
}

/// The refusal where no root is lawful.
fn no_root() -> Option<Report> {
    Some(Report::bare(23))
}

/// An open must be refused so, or be done, where sector 0 has these bytes at this place in place of a new shelf's.
fn expect_open(place: u32, piece: &[u8], want: Option<Report>) -> Result<(), Fail> {
    let mut bytes = [0; 5632];
    let mut device = WriteMemory::new(&mut bytes, Budget::Endless, RootTear::All);
    format(&mut device)?;
    device.write(place, piece)?;
    check_eq(refusal_of(open(&mut device)), want)
}

#[test]
fn zeros_are_no_root() -> Result<(), Fail> {
    let mut bytes = [0; 5632];
    let mut device = WriteMemory::new(&mut bytes, Budget::Endless, RootTear::All);
    check_eq(refusal_of(open(&mut device)), no_root())
}

#[test]
fn no_sector_is_out_of_range() -> Result<(), Fail> {
    let mut bytes = [0; 511];
    let mut device = WriteMemory::new(&mut bytes, Budget::Endless, RootTear::All);
    check_eq(refusal_of(open(&mut device)), Some(Report::bare(11)))
}

/// Each of the 504 bytes behind the two words must be zero.
#[test]
fn a_byte_behind_the_words() -> Result<(), Fail> {
    for place in 8..512 {
        expect_open(place, &[1], no_root())?;
    }
    Ok(())
}

/// The area is 0 or 1, the length from 2,048 to 2,560.
#[test]
fn areas_and_lengths() -> Result<(), Fail> {
    let areas = [
        (0, None),
        (1, None),
        (2, no_root()),
        (256, no_root()),
        (16777216, no_root()),
    ];
    for (area, want) in areas {
        expect_open(0, &u32::to_le_bytes(area), want)?;
    }
    let lengths = [
        (2047, no_root()),
        (2048, None),
        (2560, None),
        (2561, no_root()),
        (4294967295, no_root()),
    ];
    for (len, want) in lengths {
        expect_open(4, &u32::to_le_bytes(len), want)?;
    }
    Ok(())
}

/// A shelf of 11 sectors on a device of 12, which has areas of the same length, and on one of 10: each call is refused first.
#[test]
fn devices_of_another_size() -> Result<(), Fail> {
    let mut bytes = [0; 5632];
    let mut more = [0; 6144];
    let mut fewer = [0; 5120];
    let mut device = WriteMemory::new(&mut bytes, Budget::Endless, RootTear::All);
    let mut more = WriteMemory::new(&mut more, Budget::Endless, RootTear::All);
    let mut fewer = WriteMemory::new(&mut fewer, Budget::Count(0), RootTear::All);
    let size = Report::bare(11);
    let mut entries = [BLANK];
    let draft = format(&mut device)?.begin();
    let draft = refused(draft.add(&mut more, &mut [], b"", b""), size)?;
    let draft = refused(draft.add(&mut fewer, &mut entries, b"", b""), size)?;
    let draft = done(draft.add(&mut device, &mut entries, b"", b""))?;
    let draft = refused(draft.finish(&mut more, &[]), size)?;
    let draft = refused(draft.finish(&mut fewer, &entries), size)?;
    let finished = done(draft.finish(&mut device, &entries))?;
    let Some(finished) = refused(finished.publish(&mut more), size)? else {
        return Err(Fail::new("the draft is gone"));
    };
    let Some(finished) = refused(finished.publish(&mut fewer), size)? else {
        return Err(Fail::new("the draft is gone"));
    };
    let live = done(finished.publish(&mut device))?.live();
    expect_data(&mut device, live, b"", &[b""])
}
