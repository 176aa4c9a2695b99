//! Files that are made on a shelf.

use auditing::auditing::audit;
use building::entries::Entry;
use checks::check_eq;
use device::device::{Device, WritableDevice};
use faults::report::Report;
use marks::layer::Marked;
use memory::writing::{Budget, RootTear, WriteMemory};
use shelf::formatting::format;
use shelf::opening::open;
use shelf::states::Shelf;
use shelf_making::fault::MakeRefused;
use shelf_making::publishing::{make_records, make_text};
use std::test::Fail;
use text::lent::LentRecord;

const BLANK: Entry = Entry { hash: 0, place: 0 };

/// The writes of a make of no records before the root's: one for each entry of the header.
const BEFORE_ROOT: u32 = 256;

/// Texts of one record and of two.
const ONE: &[u8] = b"+1,1:a->1\n\n";

const TWO: &[u8] = b"+1,1:a->1\n+1,1:a->2\n\n";

/// The number of records of a shelf's live file, where the audit accepts it.
fn live_records<D: WritableDevice>(d: &mut D, shelf: &Shelf) -> Option<u32> {
    Some(audit(d, shelf.live()).ok()?.records)
}

/// The length of a shelf's live file, and the sectors that it may lie in on a device of 11 sectors.
fn live_file<D: WritableDevice>(d: &mut D, shelf: &Shelf) -> Result<(u32, [[u8; 512]; 5]), Fail> {
    let live = shelf.live();
    let mut sectors = [[0; 512]; 5];
    for i in 0..5u32 {
        let mut sector = [0; 512];
        d.read(live.start.saturating_add(512 * i), &mut sector)?;
        sectors[i as usize] = sector;
    }
    Ok((live.len, sectors))
}

/// How a make is refused: the number, and the shelf that comes back.
fn refused(outcome: Result<Shelf, MakeRefused>) -> Result<(u32, Option<Shelf>), Fail> {
    match outcome {
        Ok(_) => Err(Fail::new("the make is done")),
        Err(refused) => Ok((Report::from(refused.fault).number, refused.shelf)),
    }
}

/// The shelf that comes back from a make that must be refused with this number.
fn given_back(outcome: Result<Shelf, MakeRefused>, number: u32) -> Result<Shelf, Fail> {
    let (told, shelf) = refused(outcome)?;
    check_eq(told, number)?;
    shelf.ok_or_else(|| Fail::new("no shelf comes back"))
}

/// The shelf after a make that must be done.
fn done(outcome: Result<Shelf, MakeRefused>) -> Result<Shelf, Fail> {
    outcome.map_err(|_| Fail::new("the make is refused"))
}

/// A new shelf with the file of one record.
fn with_one<D: WritableDevice>(d: &mut D) -> Result<Shelf, Fail> {
    let shelf = format(d)?;
    done(make_text(shelf, d, &mut [BLANK], ONE))
}

#[test]
fn one_file_after_the_other() -> Result<(), Fail> {
    let mut bytes = [0u8; 512 * 13];
    let mut d = WriteMemory::new(&mut bytes, Budget::Endless, RootTear::All);
    let mut entries = [BLANK; 3];
    let shelf = format(&mut d)?;
    check_eq(live_records(&mut d, &shelf), Some(0))?;
    let shelf = done(make_text(shelf, &mut d, &mut entries, TWO))?;
    check_eq(live_records(&mut d, &shelf), Some(2))?;
    let record = LentRecord {
        key: b"one",
        data: b"Hello",
    };
    let shelf = done(make_records(shelf, &mut d, &mut entries, &[record; 3]))?;
    check_eq(live_records(&mut d, &shelf), Some(3))
}

#[test]
fn refusals() -> Result<(), Fail> {
    let mut bytes = [0u8; 512 * 11];
    let memory = WriteMemory::new(&mut bytes, Budget::Endless, RootTear::All);
    let mut d = Marked::new(memory);
    let mut entries = [BLANK; 2];
    let shelf = with_one(&mut d)?;
    let former = live_file(&mut d, &shelf)?;
    let malformed = b"+01,1:a->1";
    let shelf = given_back(make_text(shelf, &mut d, &mut entries, malformed), 10)?;
    check_eq(live_file(&mut d, &shelf)?, former)?;
    let three = b"+0,0:->\n+0,0:->\n+0,0:->\n\n";
    let shelf = given_back(make_text(shelf, &mut d, &mut entries, three), 24)?;
    check_eq(live_file(&mut d, &shelf)?, former)?;
    let too_long = LentRecord {
        key: b"long",
        data: &[b'l'; 500],
    };
    let shelf = given_back(make_records(shelf, &mut d, &mut entries, &[too_long]), 25)?;
    check_eq(live_file(&mut d, &shelf)?, former)?;
    // The file of one record begins with sector 6, so the next one is to begin with sector 1.
    check_eq(shelf.live().start, 6 * 512)?;
    d.mark(3)?;
    let shelf = given_back(make_text(shelf, &mut d, &mut entries, TWO), 22)?;
    check_eq(live_file(&mut d, &shelf)?, former)?;
    check_eq(live_records(&mut d, &shelf), Some(1))
}

#[test]
fn a_device_of_another_size() -> Result<(), Fail> {
    let mut bytes = [0u8; 512 * 11];
    let mut d = WriteMemory::new(&mut bytes, Budget::Endless, RootTear::All);
    let shelf = with_one(&mut d)?;
    let former = live_file(&mut d, &shelf)?;
    let mut others = [0u8; 512 * 13];
    let mut other = WriteMemory::new(&mut others, Budget::Endless, RootTear::All);
    let other_shelf = with_one(&mut other)?;
    let shelf = given_back(make_text(shelf, &mut other, &mut [BLANK; 2], TWO), 11)?;
    check_eq(live_file(&mut d, &shelf)?, former)?;
    check_eq(live_records(&mut other, &other_shelf), Some(1))
}

#[test]
fn power_that_goes() -> Result<(), Fail> {
    let mut bytes = [0u8; 512 * 11];
    let mut d = WriteMemory::new(&mut bytes, Budget::Endless, RootTear::Nothing);
    let shelf = with_one(&mut d)?;
    let former = live_file(&mut d, &shelf)?;
    d.set_writes(Budget::Count(0), RootTear::Nothing);
    let shelf = given_back(make_text(shelf, &mut d, &mut [BLANK; 2], TWO), 21)?;
    let mut d = WriteMemory::new(d.into_bytes(), Budget::Endless, RootTear::All);
    check_eq(live_file(&mut d, &shelf)?, former)
}

/// What is seen of a make that was cut after so many writes, when the power is back.
#[derive(Clone, Copy, PartialEq, Eq, Debug)]
struct AfterCut {
    shelf_came_back: bool,
    records: Option<u32>,
}

/// A make of no records over one, which so many writes must not suffice for.
fn make_cut(left: u32, tear: RootTear) -> Result<AfterCut, Fail> {
    let mut bytes = [0u8; 512 * 11];
    let mut d = WriteMemory::new(&mut bytes, Budget::Endless, RootTear::All);
    let shelf = with_one(&mut d)?;
    d.set_writes(Budget::Count(left), tear);
    let (number, shelf) = refused(make_text(shelf, &mut d, &mut [], b"\n"))?;
    check_eq(number, 21)?;
    let mut d = WriteMemory::new(d.into_bytes(), Budget::Endless, RootTear::All);
    let reopened = open(&mut d)?;
    Ok(AfterCut {
        shelf_came_back: shelf.is_some(),
        records: live_records(&mut d, &reopened),
    })
}

#[test]
fn power_that_goes_at_the_root() -> Result<(), Fail> {
    let before = AfterCut {
        shelf_came_back: true,
        records: Some(1),
    };
    check_eq(make_cut(BEFORE_ROOT - 1, RootTear::All)?, before)?;
    let former = AfterCut {
        shelf_came_back: false,
        records: Some(1),
    };
    check_eq(make_cut(BEFORE_ROOT, RootTear::Nothing)?, former)?;
    let new = AfterCut {
        shelf_came_back: false,
        records: Some(0),
    };
    check_eq(make_cut(BEFORE_ROOT, RootTear::All)?, new)
}
