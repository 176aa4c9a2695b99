//! Pages: which sectors are kept, and for how long. Reads that reach the device below are counted.

use crate::asks::*;
use crate::counted::Counted;
use cache::layer::Cache;
use checks::check_eq;
use faults::device::DeviceFault;
use marks::layer::Marked;
use memory::writing::{Budget, RootTear, WriteMemory};
use stacks::over_memory::{CacheOverMarks, OverMemory};
use std::test::Fail;

/// What is asked of a cache over 24 sectors, each of which is made of its own number; so many reads must reach the device below.
fn expect_reads(asks: &[Ask], reads: u32) -> Result<(), Fail> {
    let mut bytes = [0; 12288];
    number(&mut bytes);
    let mut device = Cache::new(Counted::new(WriteMemory::new(
        &mut bytes,
        Budget::Endless,
        RootTear::All,
    )));
    expect(&mut device, asks)?;
    check_eq(device.into_below().reads(), reads)
}

/// Gives every byte its sector's number.
fn number(bytes: &mut [u8]) {
    for (i, b) in bytes.iter_mut().enumerate() {
        *b = (i / 512 % 256) as u8;
    }
}

/// The last byte of a sector, which is its number.
fn sector(number: u8) -> Ask {
    Ask::Byte(512 * number as u32 + 511, number)
}

/// Sectors s and s + 8 share a page: each read of the other one reads below again.
#[test]
fn every_conflict() -> Result<(), Fail> {
    for s in 1..16u8 {
        expect_reads(
            &[
                sector(s),
                sector(s),
                sector(s + 8),
                sector(s + 8),
                sector(s),
            ],
            3,
        )?;
    }
    Ok(())
}

#[test]
fn sector_0_is_never_kept() -> Result<(), Fail> {
    expect_reads(&[sector(8), sector(0), sector(0), sector(8)], 3)
}

#[test]
fn a_miss_touches_no_other_page() -> Result<(), Fail> {
    expect_reads(
        &[
            sector(1),
            sector(2),
            sector(3),
            sector(4),
            sector(5),
            sector(6),
            sector(7),
            sector(8),
            sector(9),
            sector(2),
            sector(3),
            sector(4),
            sector(5),
            sector(6),
            sector(7),
            sector(8),
            sector(9),
            sector(1),
        ],
        10,
    )
}

#[test]
fn a_write_mends_its_page() -> Result<(), Fail> {
    expect_reads(
        &[
            sector(3),
            Ask::Write(2040, 4, 77, DONE),
            Ask::Byte(2039, 3),
            Ask::Byte(2043, 77),
            Ask::Byte(2044, 3),
        ],
        1,
    )
}

#[test]
fn a_write_leaves_other_pages() -> Result<(), Fail> {
    expect_reads(
        &[
            sector(3),
            sector(8),
            Ask::Write(5632, 512, 77, DONE),
            Ask::Write(0, 512, 78, DONE),
            sector(3),
            sector(8),
            Ask::Byte(5632, 77),
            Ask::Byte(0, 78),
        ],
        4,
    )
}

#[test]
fn a_kept_sector_that_goes_bad_is_refused() -> Result<(), Fail> {
    let mut bytes = [0; 12288];
    number(&mut bytes);
    let mut device = CacheOverMarks::over(&mut bytes, Budget::Endless, RootTear::All);
    expect(&mut device, &[sector(3)])?;
    device.mark(3)?;
    let bad = Err(DeviceFault::Bad(1536));
    expect(
        &mut device,
        &[
            Ask::State(3, bad),
            Ask::Read(1536, 1, bad),
            Ask::Write(1536, 1, 9, bad),
            sector(11),
        ],
    )
}

#[test]
fn a_refused_write_leaves_the_pages(rt: HostRuntime) -> Result<(), Fail> {
    let mut bytes = [0; 12288];
    number(&mut bytes);
    let mut device = Cache::new(Marked::new(Counted::new(WriteMemory::new(
        &mut bytes,
        Budget::Endless,
        RootTear::All,
    ))));
    expect(&mut device, &[sector(3)])?;
    device.mark(11)?;
    expect(
        &mut device,
        &[
            Ask::Write(5632, 512, 77, Err(DeviceFault::Bad(5632))),
            sector(3),
        ],
    )?;
    let (below, _) = device.into_below().into_parts();
    assert_eq!(rt; below.reads(), 1);
    Ok(())
}

#[test]
fn a_kept_sector_is_refused_without_power() -> Result<(), Fail> {
    let mut bytes = [0; 12288];
    number(&mut bytes);
    let mut device = Cache::new(WriteMemory::new(&mut bytes, Budget::Count(0), RootTear::All));
    expect(
        &mut device,
        &[
            sector(3),
            sector(4),
            Ask::Write(1536, 2, 9, POWER),
            Ask::Read(1536, 1, POWER),
            Ask::Read(2048, 1, POWER),
        ],
    )
}
