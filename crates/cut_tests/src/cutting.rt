//! Publications over a former one, and a format, cut at each number of writes.

use crate::files::expect_file;
use crate::publishing::{End, Record, publish_all};
use checks::{check, check_eq};
use faults::report::Report;
use memory::writing::{Budget, RootTear, WriteMemory};
use shelf::formatting::format;
use shelf::opening::open;
use stacks::over_memory::{CacheOverMarks, MarksOverCache, OverMemory};
use std::test::Fail;

/// Data that do not lie in one sector.
const LONG: [u8; 600] = [b'l'; 600];

/// Records of which two have one key.
const FIRST: [Record<'static>; 4] = [(b"a", b"1"), (b"b", b"2"), (b"a", b"3"), (b"", b"")];

/// Other records, with keys that the first have too.
const SECOND: [Record<'static>; 5] = [
    (b"b", b"4"),
    (b"c", &LONG),
    (b"a", b"5"),
    (b"b", b"6"),
    (b"b", b"4"),
];

/// All keys of these records, and one that none has.
const KEYS: [&[u8]; 5] = [b"a", b"b", b"c", b"", b"d"];

/// What is published in turn after a format, each done, and the publication that is cut.
struct Round<'a> {
    former: &'a [&'a [Record<'a>]],
    new: &'a [Record<'a>],
}

/// More writes than a publication or a format makes.
const MANY: u32 = 1000;

impl<'a> Round<'a> {
    /// The records that must be live after a cut.
    fn live_after(&self, end: End, tear: RootTear) -> &'a [Record<'a>] {
        match (end, tear) {
            (End::Done, _) | (End::InPublish, RootTear::All) => self.new,
            (End::InDraft, _) | (End::InPublish, RootTear::Nothing) => self
                .former
                .last()
                .copied()
                .unwrap_or(&[]),
        }
    }
}

/// The bytes of a device after a format and the publications that come before the cut.
fn former_bytes(former: &[&[Record<'_>]]) -> Result<[u8; 8704], Fail> {
    let mut bytes = [9; 8704];
    let mut device = WriteMemory::new(&mut bytes, Budget::Endless, RootTear::All);
    let mut shelf = format(&mut device)?;
    for records in former {
        check_eq(publish_all(&mut device, shelf, records)?, End::Done)?;
        shelf = open(&mut device)?;
    }
    Ok(bytes)
}

/// The last publication of a round, with so many writes. When the power is back, the live file must be the former or the new one.
fn cut<'a, D: OverMemory<'a> + Drop>(
    device: D,
    round: &Round<'_>,
    left: u32,
    tear: RootTear,
) -> Result<End, Fail> {
    let mut device = device.with_writes(Budget::Count(left), tear);
    let shelf = open(&mut device)?;
    let end = publish_all(&mut device, shelf, round.new)?;
    let mut device = device.restart(Budget::Endless, RootTear::All);
    let live = open(&mut device)?.live();
    expect_file(&mut device, live, round.live_after(end, tear), &KEYS)?;
    Ok(end)
}

/// The cut on both stacks over these bytes, which must come equally far.
fn cut_both(bytes: &[u8; 8704], round: &Round<'_>, left: u32, tear: RootTear) -> Result<End, Fail> {
    let mut copy = *bytes;
    let device = CacheOverMarks::over(&mut copy, Budget::Endless, RootTear::All);
    let end = cut(device, round, left, tear)?;
    let mut copy = *bytes;
    let device = MarksOverCache::over(&mut copy, Budget::Endless, RootTear::All);
    check_eq(cut(device, round, left, tear)?, end)?;
    Ok(end)
}

/// A round cut at every number of writes, until it is done; the last cut, and no other, must be one of the publish. Gives the number
/// of cuts.
fn cut_everywhere(round: &Round<'_>, tear: RootTear) -> Result<u32, Fail> {
    let bytes = former_bytes(round.former)?;
    let mut before = End::InDraft;
    for left in 0..MANY {
        let end = cut_both(&bytes, round, left, tear)?;
        if end == End::Done {
            check_eq(before, End::InPublish)?;
            return Ok(left);
        }
        check_eq(before, End::InDraft)?;
        before = end;
    }
    Err(Fail::new("the publication is never done"))
}

/// There must be a cut for each of the header's four sectors, for each record and for the root at least.
fn expect_round(round: &Round<'_>) -> Result<(), Fail> {
    let cuts = cut_everywhere(round, RootTear::All)?;
    check(cuts as usize >= 5 + round.new.len())?;
    check_eq(cut_everywhere(round, RootTear::Nothing)?, cuts)
}

#[test]
fn the_first_publication() -> Result<(), Fail> {
    expect_round(&Round {
        former: &[],
        new: &FIRST,
    })
}

#[test]
fn the_second_publication() -> Result<(), Fail> {
    expect_round(&Round {
        former: &[&FIRST],
        new: &SECOND,
    })
}

#[test]
fn a_publication_over_no_records() -> Result<(), Fail> {
    expect_round(&Round {
        former: &[&FIRST, &[]],
        new: &SECOND,
    })
}

#[test]
fn a_publication_of_no_records() -> Result<(), Fail> {
    expect_round(&Round {
        former: &[&SECOND],
        new: &[],
    })
}

/// A format of zeros with so many writes, and whether it is done. When the power is back, there must be no shelf, or one without
/// records; if the format is done, the latter.
fn cut_format(left: u32, tear: RootTear) -> Result<bool, Fail> {
    let mut bytes = [0; 8704];
    let mut device = CacheOverMarks::over(&mut bytes, Budget::Count(left), tear);
    let answer = format(&mut device).map(|shelf| shelf.live().len);
    let mut device = device.restart(Budget::Endless, RootTear::All);
    match open(&mut device) {
        Ok(shelf) => expect_file(&mut device, shelf.live(), &[], &KEYS)?,
        Err(fault) => {
            check_eq(Report::from(fault), Report::bare(23))?;
            check(answer.is_err())?;
        }
    }
    Ok(answer.is_ok())
}

/// A format cut at every number of writes, until it is done. Gives the number of cuts.
fn cut_formats(tear: RootTear) -> Result<u32, Fail> {
    for left in 0..MANY {
        if cut_format(left, tear)? {
            return Ok(left);
        }
    }
    Err(Fail::new("the format is never done"))
}

/// There must be a cut for each of the header's four sectors and for the root at least.
#[test]
fn a_format() -> Result<(), Fail> {
    let cuts = cut_formats(RootTear::All)?;
    check(cuts >= 5)?;
    check_eq(cut_formats(RootTear::Nothing)?, cuts)
}
