//! Each refusal in its order: 11, then 21, then 22.

use crate::asks::*;
use device::device::WritableDevice;
use faults::device::DeviceFault;
use marks::layer::Marked;
use memory::writing::{Budget, RootTear, WriteMemory};
use stacks::over_memory::{CacheOverMarks, MarksOverCache, OverMemory};
use std::test::Fail;

const BAD: Answer = Err(DeviceFault::Bad(1024));

/// What a device of four sectors refuses with 11, whatever its power and its bad sectors.
const RANGES: [Ask; 12] = [
    Ask::State(4, RANGE),
    Ask::State(4294967295, RANGE),
    Ask::Read(1024, 0, RANGE),
    Ask::Read(1024, 513, RANGE),
    Ask::Read(1025, 512, RANGE),
    Ask::Read(2048, 1, RANGE),
    Ask::Read(4294967295, 1, RANGE),
    Ask::Write(1024, 0, 2, RANGE),
    Ask::Write(1024, 513, 2, RANGE),
    Ask::Write(1025, 512, 2, RANGE),
    Ask::Write(2048, 1, 2, RANGE),
    Ask::Write(4294967295, 1, 2, RANGE),
];

/// What it refuses with 22 where sector 2 is bad and power is on; no other sector is refused.
const BADS: [Ask; 8] = [
    Ask::State(2, BAD),
    Ask::Read(1024, 512, BAD),
    Ask::Read(1535, 1, BAD),
    Ask::Write(1030, 4, 2, BAD),
    Ask::State(3, DONE),
    Ask::Read(1023, 1, DONE),
    Ask::Read(1536, 512, DONE),
    Ask::Read(0, 512, DONE),
];

/// Without power all that is in range is refused with 21, the bad sector too.
const POWERS: [Ask; 8] = [
    Ask::State(0, POWER),
    Ask::State(2, POWER),
    Ask::Read(0, 1, POWER),
    Ask::Read(1024, 1, POWER),
    Ask::Read(1536, 512, POWER),
    Ask::Write(0, 1, 2, POWER),
    Ask::Write(1024, 1, 2, POWER),
    Ask::Write(1536, 512, 2, POWER),
];

/// The whole order on a device of four sectors whose sector 2 is bad and that has no write left.
fn in_order<D: WritableDevice>(device: &mut D) -> Result<(), Fail> {
    expect(device, &RANGES)?;
    expect(device, &BADS)?;
    expect(device, &[Ask::Write(1536, 1, 2, POWER)])?;
    expect(device, &RANGES)?;
    expect(device, &POWERS)
}

#[test]
fn marks_over_memory() -> Result<(), Fail> {
    let mut bytes = [1; 2100];
    let mut device = Marked::new(WriteMemory::new(&mut bytes, Budget::Count(0), RootTear::All));
    device.mark(2)?;
    in_order(&mut device)
}

#[test]
fn cache_over_marks() -> Result<(), Fail> {
    let mut bytes = [1; 2100];
    let mut device = CacheOverMarks::over(&mut bytes, Budget::Count(0), RootTear::All);
    device.mark(2)?;
    in_order(&mut device)
}

#[test]
fn marks_over_cache() -> Result<(), Fail> {
    let mut bytes = [1; 2100];
    let mut device = MarksOverCache::over(&mut bytes, Budget::Count(0), RootTear::All);
    device.mark(2)?;
    in_order(&mut device)
}

#[test]
fn memory_alone() -> Result<(), Fail> {
    let mut bytes = [1; 2100];
    let mut device = WriteMemory::new(&mut bytes, Budget::Count(0), RootTear::All);
    expect(&mut device, &RANGES)?;
    expect(
        &mut device,
        &[Ask::State(2, DONE), Ask::Write(1536, 1, 2, POWER)],
    )?;
    expect(&mut device, &RANGES)?;
    expect(&mut device, &POWERS)
}
