//! Marks: sixteen of them, the seventeenth, and a sector marked twice.

use crate::asks::*;
use checks::check_eq;
use device::device::Device;
use faults::device::DeviceFault;
use faults::report::Report;
use marks::fault::MarkFault;
use marks::layer::Marked;
use memory::reading::ReadMemory;
use std::test::Fail;

/// Marks the sectors from one to another; each must be done.
fn mark_up_to<D: Device>(device: &mut Marked<D>, from: u32, to: u32) -> Result<(), Fail> {
    for sector in from..to {
        device.mark(sector)?;
    }
    Ok(())
}

/// The first sectors, up to one, must be bad, and that one not.
fn expect_bad_up_to<D: Device>(device: &mut D, to: u8) -> Result<(), Fail> {
    for sector in 0..to {
        expect_state(
            device,
            sector as u32,
            Err(DeviceFault::Bad(512 * sector as u32)),
        )?;
    }
    expect_state(device, to as u32, DONE)
}

/// The answers that marking sectors must give.
fn expect_marks<D: Device>(
    device: &mut Marked<D>,
    cases: &[(u32, Result<(), MarkFault>)],
) -> Result<(), Fail> {
    for (sector, want) in cases {
        let got = device.mark(*sector);
        check_eq(got, *want)?;
    }
    Ok(())
}

#[test]
fn sixteen_marks() -> Result<(), Fail> {
    let bytes = [1; 9216];
    let mut device = Marked::new(ReadMemory::new(&bytes));
    expect_marks(&mut device, &[(18, Err(MarkFault::Range))])?;
    mark_up_to(&mut device, 0, 16)?;
    expect_marks(
        &mut device,
        &[
            (16, Err(MarkFault::Full)),
            (18, Err(MarkFault::Range)),
            (3, Ok(())),
            (17, Err(MarkFault::Full)),
        ],
    )?;
    expect_bad_up_to(&mut device, 16)
}

#[test]
fn a_mark_twice_takes_one_place() -> Result<(), Fail> {
    let bytes = [1; 9216];
    let mut device = Marked::new(ReadMemory::new(&bytes));
    mark_up_to(&mut device, 0, 15)?;
    mark_up_to(&mut device, 0, 15)?;
    expect_bad_up_to(&mut device, 15)?;
    expect_marks(
        &mut device,
        &[(15, Ok(())), (15, Ok(())), (16, Err(MarkFault::Full))],
    )?;
    expect_bad_up_to(&mut device, 16)
}

#[test]
fn marks_move_to_another_device() -> Result<(), Fail> {
    let bytes = [1; 9216];
    let other = [2; 8704];
    let mut device = Marked::new(ReadMemory::new(&bytes));
    mark_up_to(&mut device, 0, 16)?;
    let (_, marks) = device.into_parts();
    let mut device = Marked::with_marks(ReadMemory::new(&other), marks);
    expect_bad_up_to(&mut device, 16)?;
    expect_marks(
        &mut device,
        &[
            (1, Ok(())),
            (16, Err(MarkFault::Full)),
            (17, Err(MarkFault::Range)),
        ],
    )
}

#[test]
fn reports(rt: HostRuntime) {
    assert_eq!(rt; Report::from(MarkFault::Range).number, 11);
    assert_eq!(rt; Report::from(MarkFault::Full).number, 29);
}
