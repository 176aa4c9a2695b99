//! Bad sectors at each place of root, header, records and tables. The device has 15 sectors: area 0 is sectors 1 to 7, and area 1,
//! which takes the draft, sectors 8 to 14. Its header has sectors 8 to 11, its one record 12 and 13, its table 13 and 14.

use crate::calls::*;
use cache::layer::Cache;
use checks::check_eq;
use faults::report::Report;
use marks::layer::Marked;
use memory::writing::{Budget, RootTear};
use shelf::formatting::format;
use shelf::states::Finished;
use stacks::over_memory::{CacheOverMarks, OverMemory};
use std::test::Fail;

const KEY: [u8; 500] = [b'k'; 500];

/// With the key they make a record from 2048 to 3064.
const DATA: [u8; 508] = [b'd'; 508];

/// Refused with 22, at the first byte of a sector.
fn bad(sector: u32) -> Report {
    Report::placed(22, 512 * u64::from(sector))
}

/// The sector, if it is one of these.
fn among(sector: u32, sectors: &[u32]) -> Option<u32> {
    sectors.contains(&sector).then_some(sector)
}

fn mark_all(device: &mut CacheOverMarks<'_>, sectors: &[u32]) -> Result<(), Fail> {
    for sector in sectors {
        device.mark(*sector)?;
    }
    Ok(())
}

/// The device with no sector marked.
fn unmarked(device: CacheOverMarks<'_>) -> CacheOverMarks<'_> {
    let (memory, _) = device.into_below().into_parts();
    Cache::new(Marked::new(memory))
}

/// A format beside bad sectors must name this one, if any, and leave sector 0 then.
fn expect_format(sectors: &[u32], want: Option<u32>) -> Result<(), Fail> {
    let mut bytes = [9; 7680];
    let mut device = CacheOverMarks::over(&mut bytes, Budget::Endless, RootTear::All);
    mark_all(&mut device, sectors)?;
    let got = format(&mut device).err().map(Report::from);
    check_eq(got, want.map(bad))?;
    check_eq(bytes[8] == 9, want.is_some())
}

/// Publishes a draft of the one record, which must be found then.
fn expect_published(mut device: CacheOverMarks<'_>, finished: Finished) -> Result<(), Fail> {
    expect_data(&mut device, finished.live(), &KEY, &[])?;
    let live = done(finished.publish(&mut device))?.live();
    expect_data(&mut device, live, &KEY, &[&DATA])
}

/// An add beside bad sectors must name this one, if any, and is done on good ones then.
fn expect_add(sectors: &[u32], want: Option<u32>) -> Result<(), Fail> {
    let mut bytes = [9; 7680];
    let mut device = CacheOverMarks::over(&mut bytes, Budget::Endless, RootTear::All);
    let mut entries = [BLANK];
    let mut draft = format(&mut device)?.begin();
    mark_all(&mut device, sectors)?;
    if let Some(sector) = want {
        let answer = draft.add(&mut device, &mut entries, &KEY, &DATA);
        draft = refused(answer, bad(sector))?;
        check_eq(entries, [BLANK])?;
        device = unmarked(device);
    }
    let draft = done(draft.add(&mut device, &mut entries, &KEY, &DATA))?;
    let mut device = unmarked(device);
    let finished = done(draft.finish(&mut device, &entries))?;
    expect_published(device, finished)
}

/// A finish beside bad sectors must name this one, if any, and is done on good ones then.
fn expect_finish(sectors: &[u32], want: Option<u32>) -> Result<(), Fail> {
    let mut bytes = [9; 7680];
    let mut device = CacheOverMarks::over(&mut bytes, Budget::Endless, RootTear::All);
    let mut entries = [BLANK];
    let draft = format(&mut device)?.begin();
    let mut draft = done(draft.add(&mut device, &mut entries, &KEY, &DATA))?;
    mark_all(&mut device, sectors)?;
    if let Some(sector) = want {
        draft = refused(draft.finish(&mut device, &entries), bad(sector))?;
        device = unmarked(device);
    }
    let finished = done(draft.finish(&mut device, &entries))?;
    expect_published(unmarked(device), finished)
}

/// A publish beside bad sectors must name this one and leave the live file, and is done on good ones then.
fn expect_publish(sectors: &[u32], want: u32) -> Result<(), Fail> {
    let mut bytes = [9; 7680];
    let mut device = CacheOverMarks::over(&mut bytes, Budget::Endless, RootTear::All);
    let mut entries = [BLANK];
    let draft = format(&mut device)?.begin();
    let draft = done(draft.add(&mut device, &mut entries, &KEY, &DATA))?;
    let finished = done(draft.finish(&mut device, &entries))?;
    mark_all(&mut device, sectors)?;
    let Some(finished) = refused(finished.publish(&mut device), bad(want))? else {
        return Err(Fail::new("the draft is gone"));
    };
    expect_published(unmarked(device), finished)
}

/// The header in area 0 comes first, then the root.
#[test]
fn formats() -> Result<(), Fail> {
    for sector in 0..15 {
        expect_format(&[sector], among(sector, &[0, 1, 2, 3, 4]))?;
    }
    expect_format(&[4, 0, 2], Some(2))
}

#[test]
fn adds() -> Result<(), Fail> {
    for sector in 0..15 {
        expect_add(&[sector], among(sector, &[12, 13]))?;
    }
    expect_add(&[13, 12, 8], Some(12))
}

/// The tables come first, then the header.
#[test]
fn finishes() -> Result<(), Fail> {
    for sector in 0..15 {
        expect_finish(&[sector], among(sector, &[8, 9, 10, 11, 13, 14]))?;
    }
    expect_finish(&[11, 9], Some(9))?;
    expect_finish(&[14, 8, 13], Some(13))
}

/// The whole file is read first, then the root is written.
#[test]
fn publishes() -> Result<(), Fail> {
    for sector in 8..15 {
        expect_publish(&[sector, 0], sector)?;
    }
    expect_publish(&[13, 10, 11], 10)?;
    expect_publish(&[0, 1, 2, 3, 4, 5, 6, 7], 0)
}
