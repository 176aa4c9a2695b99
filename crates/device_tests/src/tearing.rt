//! A write at every number of writes left, with every setting.

use crate::asks::*;
use checks::check_eq;
use memory::writing::{Budget, RootTear, WriteMemory};
use std::array;
use std::test::Fail;

/// Place and length of the pieces that are written in turn; piece `i` is made of bytes `10 + i`.
const PIECES: [(u32, u32); 6] = [(0, 512), (3, 7), (512, 7), (1029, 10), (1535, 1), (511, 1)];

/// The write of a piece, which must be done while writes are left and is refused with 21 from then on.
fn write_of(piece: usize, left: usize) -> Ask {
    let (place, n) = PIECES[piece % 6];
    let want = if piece < left { DONE } else { POWER };
    Ask::Write(place, n as usize, 10 + (piece % 6) as u8, want)
}

/// How many bytes of a piece must be stored.
fn stored(piece: usize, left: usize, tear: RootTear) -> u32 {
    let (place, n) = PIECES[piece % 6];
    if piece < left {
        return n;
    }
    if piece > left {
        return 0;
    }
    if place >= 512 {
        return n / 2;
    }
    match tear {
        RootTear::All => n,
        RootTear::Nothing => 0,
    }
}

/// Sets so many bytes from a place on.
fn fill(bytes: &mut [u8], place: u32, n: u32, byte: u8) {
    for b in bytes.iter_mut().skip(place as usize).take(n as usize) {
        *b = byte;
    }
}

/// What the memory must hold in the end.
fn fill_all(bytes: &mut [u8], left: usize, tear: RootTear) {
    for (piece, (place, _)) in PIECES.iter().enumerate() {
        fill(bytes, *place, stored(piece, left, tear), 10 + piece as u8);
    }
}

/// All pieces with so many writes left.
fn run(budget: Budget, left: usize, tear: RootTear) -> Result<(), Fail> {
    let mut bytes = [1; 1600];
    let mut device = WriteMemory::new(&mut bytes, budget, tear);
    let writes: [Ask; 6] = array::from_fn(|piece| write_of(piece, left));
    expect(&mut device, &writes)?;
    let mut want = [1; 1600];
    fill_all(&mut want, left, tear);
    check_eq(&*device.into_bytes(), want.as_slice())
}

#[test]
fn every_number_of_writes_left() -> Result<(), Fail> {
    for left in 0..8u32 {
        run(Budget::Count(left), left as usize, RootTear::All)?;
        run(Budget::Count(left), left as usize, RootTear::Nothing)?;
    }
    Ok(())
}

#[test]
fn endless_writes() -> Result<(), Fail> {
    run(Budget::Endless, 6, RootTear::All)?;
    run(Budget::Endless, 6, RootTear::Nothing)
}
