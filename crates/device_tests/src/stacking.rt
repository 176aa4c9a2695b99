//! Stacks over memory for writing, in both orders.

use crate::asks::*;
use checks::check_eq;
use device::device::WritableDevice;
use faults::device::DeviceFault;
use memory::writing::{Budget, RootTear};
use stacks::over_memory::{CacheOverMarks, MarksOverCache, OverMemory};
use stacks::sectors::rewrite;
use std::test::Fail;

/// A torn write of five bytes, and what is refused until power returns.
const CUT: [Ask; 2] = [Ask::Write(1024, 5, 9, POWER), Ask::Read(1024, 1, POWER)];

/// What that left: two bytes; then one write more, and one of sector 0 that is torn.
const AGAIN: [Ask; 5] = [
    Ask::Byte(1025, 9),
    Ask::Byte(1026, 1),
    Ask::State(3, Err(DeviceFault::Bad(1536))),
    Ask::Write(0, 1, 7, DONE),
    Ask::Write(0, 2, 8, POWER),
];

/// A sector that is bad, one that is not there, and one that is written while a write is left.
fn expect_rewrites<D: WritableDevice>(stack: &mut D) -> Result<(), Fail> {
    let new = [5; 512];
    check_eq(rewrite(stack, 3, &new), Err(DeviceFault::Bad(1536)))?;
    check_eq(rewrite(stack, 8, &new), Err(DeviceFault::Range))?;
    check_eq(rewrite(stack, 2, &new), Ok(new))?;
    check_eq(rewrite(stack, 2, &new), Err(DeviceFault::Power))
}

/// A cut, a restart, a cut in sector 0 that stores what `tear` says, and the bytes that are there then.
fn expect_restarts<'a, D: OverMemory<'a> + Drop>(
    mut stack: D,
    tear: RootTear,
    left: &[Ask],
) -> Result<(), Fail> {
    expect(&mut stack, &[Ask::Byte(1024, 1)])?;
    let mut stack = stack.with_writes(Budget::Count(0), RootTear::Nothing);
    expect(&mut stack, &CUT)?;
    let mut stack = stack.restart(Budget::Count(1), tear);
    expect(&mut stack, &AGAIN)?;
    let mut stack = stack.restart(Budget::Endless, RootTear::All);
    expect(&mut stack, left)
}

#[test]
fn cache_over_marks_rewrites() -> Result<(), Fail> {
    let mut bytes = [1; 4096];
    let mut stack = CacheOverMarks::over(&mut bytes, Budget::Count(1), RootTear::All);
    stack.mark(3)?;
    expect_rewrites(&mut stack)
}

#[test]
fn marks_over_cache_rewrite() -> Result<(), Fail> {
    let mut bytes = [1; 4096];
    let mut stack = MarksOverCache::over(&mut bytes, Budget::Count(1), RootTear::All);
    stack.mark(3)?;
    expect_rewrites(&mut stack)
}

#[test]
fn cache_over_marks_restarts() -> Result<(), Fail> {
    let mut bytes = [1; 4096];
    let mut stack = CacheOverMarks::over(&mut bytes, Budget::Endless, RootTear::All);
    stack.mark(3)?;
    expect_restarts(stack, RootTear::All, &[Ask::Byte(0, 8), Ask::Byte(1, 8)])
}

#[test]
fn marks_over_cache_restart() -> Result<(), Fail> {
    let mut bytes = [1; 4096];
    let mut stack = MarksOverCache::over(&mut bytes, Budget::Endless, RootTear::All);
    stack.mark(3)?;
    expect_restarts(
        stack,
        RootTear::Nothing,
        &[Ask::Byte(0, 7), Ask::Byte(1, 1)],
    )
}
