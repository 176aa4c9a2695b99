//! Devices without sectors.

use crate::asks::*;
use device::device::Device;
use marks::fault::MarkFault;
use memory::reading::ReadMemory;
use memory::writing::{Budget, RootTear, WriteMemory};
use stacks::over_memory::{CacheOverMarks, MarksOverCache, OverMemory};
use std::test::Fail;

const ASKS: [Ask; 3] = [
    Ask::State(0, RANGE),
    Ask::Read(0, 1, RANGE),
    Ask::Write(0, 1, 2, RANGE),
];

#[test]
fn read_memory(rt: HostRuntime) -> Result<(), Fail> {
    let bytes = [1; 511];
    let mut device = ReadMemory::new(&bytes);
    assert_eq!(rt; device.size(), 0);
    expect_state(&mut device, 0, RANGE)?;
    expect_read(&mut device, 0, 1, RANGE)
}

#[test]
fn write_memory(rt: HostRuntime) -> Result<(), Fail> {
    let mut bytes = [1; 511];
    let mut device = WriteMemory::new(&mut bytes, Budget::Count(0), RootTear::All);
    assert_eq!(rt; device.size(), 0);
    expect(&mut device, &ASKS)
}

#[test]
fn cache_over_marks_over_memory(rt: HostRuntime) -> Result<(), Fail> {
    let mut bytes = [1; 511];
    let mut device = CacheOverMarks::over(&mut bytes, Budget::Count(0), RootTear::All);
    assert_eq!(rt; device.size(), 0);
    assert_eq!(rt; device.mark(0), Err(MarkFault::Range));
    expect(&mut device, &ASKS)
}

#[test]
fn marks_over_cache_over_memory(rt: HostRuntime) -> Result<(), Fail> {
    let mut bytes = [1; 511];
    let mut device = MarksOverCache::over(&mut bytes, Budget::Count(0), RootTear::All);
    assert_eq!(rt; device.size(), 0);
    assert_eq!(rt; device.mark(0), Err(MarkFault::Range));
    expect(&mut device, &ASKS)
}
