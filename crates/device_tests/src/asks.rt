//! What the tests ask of any device, and the answers that it must give.

use checks::{check, check_eq};
use device::device::{Device, WritableDevice};
use faults::device::DeviceFault;
use std::test::Fail;

/// An answer to a question.
pub(crate) type Answer = Result<(), DeviceFault>;

pub(crate) const DONE: Answer = Ok(());

pub(crate) const RANGE: Answer = Err(DeviceFault::Range);

pub(crate) const POWER: Answer = Err(DeviceFault::Power);

/// A question, with the answer that it must get.
// Data and no closures, since one table of asks is put to devices of different types.
#[derive(Clone, Copy)]
pub(crate) enum Ask {
    /// The state of a sector.
    State(u32, Answer),
    /// A read of so many bytes at a place.
    Read(u32, usize, Answer),
    /// A write of so many bytes of one value at a place.
    Write(u32, usize, u8, Answer),
    /// The byte at a place, which can be read and must be this one.
    Byte(u32, u8),
}

/// Asks in turn.
pub(crate) fn expect<D: WritableDevice>(device: &mut D, asks: &[Ask]) -> Result<(), Fail> {
    for ask in asks {
        expect_one(device, *ask)?;
    }
    Ok(())
}

fn expect_one<D: WritableDevice>(device: &mut D, ask: Ask) -> Result<(), Fail> {
    match ask {
        Ask::State(sector, want) => expect_state(device, sector, want),
        Ask::Read(place, n, want) => expect_read(device, place, n, want),
        Ask::Write(place, n, byte, want) => expect_write(device, place, n, byte, want),
        Ask::Byte(place, want) => expect_byte(device, place, want),
    }
}

/// The answer that a sector's state must give.
pub(crate) fn expect_state<D: Device>(
    device: &mut D,
    sector: u32,
    want: Answer,
) -> Result<(), Fail> {
    let got = device.state(sector);
    check_eq(got, want)
}

/// The answer that a read must give; one that is refused leaves the buffer.
pub(crate) fn expect_read<D: Device>(
    device: &mut D,
    place: u32,
    n: usize,
    want: Answer,
) -> Result<(), Fail> {
    let mut buffer = [170; 600];
    let got = read_part(device, place, &mut buffer, n);
    check_eq(got, want)?;
    check(got.is_ok() || is_filled(&buffer, 170))
}

/// Reads into the front of a buffer.
fn read_part<D: Device>(device: &mut D, place: u32, buffer: &mut [u8], n: usize) -> Answer {
    let end = n.min(buffer.len());
    device.read(place, &mut buffer[0..end])
}

fn expect_write<D: WritableDevice>(
    device: &mut D,
    place: u32,
    n: usize,
    byte: u8,
    want: Answer,
) -> Result<(), Fail> {
    let buffer = [byte; 600];
    let got = device.write(place, &buffer[0..n.min(600)]);
    check_eq(got, want)
}

fn expect_byte<D: Device>(device: &mut D, place: u32, want: u8) -> Result<(), Fail> {
    let mut piece = [0; 1];
    device.read(place, &mut piece)?;
    check_eq(piece[0], want)
}

/// Whether every byte is this one.
fn is_filled(bytes: &[u8], byte: u8) -> bool {
    bytes.iter().all(|b| *b == byte)
}
