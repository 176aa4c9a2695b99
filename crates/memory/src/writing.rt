//! Memory for writing.

ghost use Rattle.std.specs.Prelude.{◌≡◌};
ghost use Rattle.std.specs.Option.{option_map};
ghost use Rattle.device.specs.Meanings.{Whole, spent};
ghost use Rattle.std.proofs.Props.{props};
ghost use Rattle.memory.specs.Memories.{memory, fitting};
ghost use Rattle.memory.specs.Writing.{writes, torn_stored};

mod making;
mod reading;
mod storing;

use device::device::Device;
use faults::device::DeviceFault;

/// The writes that a memory has left.
// An `Option<u32>` would be no plainer: its `None` would read as no write, and stands for any number.
#[derive(Clone, Copy)]
pub enum Budget {
    /// Any number.
    Endless,
    /// So many.
    Count(u32),
}

/// What a torn write of sector 0 stores of its piece.
#[derive(Clone, Copy)]
pub enum RootTear {
    /// All of it: the sector has its new bytes.
    All,
    /// None of it: the sector has its old bytes.
    Nothing,
}

/// Memory that is lent for reading and writing.
// Power and the writes left are two fields: power that goes leaves the writes as they are.
#[derive(Drop)]
pub struct WriteMemory<'a> {
    bytes: &'a mut [u8],
    sectors: u32,
    left: Budget,
    power: bool,
    tear: RootTear,
    ghost count: { sectors ≡ fitting bytes.now },
    ghost whole: { Whole (memory bytes.now power (writes left)) } by { Prim.hlevel props },
}

impl Budget {
    /// What is left after one more write; none where no write is left.
    fn after_write(self) -> Option<Budget>
        ensures { option_map writes result ≡ spent (writes self) }
    {
        match self {
            Budget::Endless => Some(Budget::Endless),
            Budget::Count(n) => n.checked_sub(1).map(Budget::Count),
        }
    }
}

impl RootTear {
    /// How many bytes of a piece of `n` a torn write stores: half of them, but in sector 0 all or none.
    fn stored_of(self, place: u32, n: usize) -> usize
        ensures { result ≡ torn_stored self place n }
    {
        if place >= 512 {
            return n / 2;
        }
        match self {
            RootTear::All => n,
            RootTear::Nothing => 0,
        }
    }
}

// The methods of the type itself say more than the trait, which the `impl` of a trait cannot for a type with a lifetime.
impl<'a> Device for WriteMemory<'a> {
    ghost meaning = { λ d. memory d.bytes.now d.power (writes d.left) };

    ghost whole = { λ d. d.whole };

    fn size(&self) -> u32 {
        self.sectors
    }

    fn state(&mut self, sector: u32) -> Result<(), DeviceFault> {
        WriteMemory::state(self, sector)
    }

    fn read(&mut self, place: u32, piece: &mut [u8]) -> Result<(), DeviceFault> {
        WriteMemory::read(self, place, piece)
    }
}
