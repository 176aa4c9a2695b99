//! Memory that changes between the calls: a byte outside the file is flipped.

ghost use Rattle.std.specs.Prelude.{◌≡◌, ℕ, ◌+◌, ◌-◌, ◌*◌, ◌/◌, ◌%◌, ◌^◌, ◌<◌, ◌≤◌, true, length};
ghost use Rattle.byte_lists.specs.Bytes.{part, Bytes};
ghost use Rattle.device.specs.Meanings.{endless, Whole, within};
ghost use Rattle.std.proofs.Props.{props};
ghost use Rattle.memory.specs.Memories.{memory, fitting};
ghost use Rattle.lookup_changing.specs.Flips.{beside, flipped};

use byte_lists::slices::know_bytes;
use device::checks::is_within;
use device::device::Device;
use faults::device::DeviceFault;
use file::extents::Extent;
use lookup_runs::changing::Changing;
use memory::sectors::{copy_out, count_sectors};

/// A place outside an extent.
fn place_beside(extent: Extent) -> usize
    ensures { result ≡ beside extent }
{
    if extent.start > 0 {
        return 0;
    }
    extent.start as usize + extent.len as usize
}

/// Memory whose first byte flips, if the file does not begin with it, or else the byte behind the file.
// A layer over memory would be no plainer: it could flip a byte only by a write, which may be refused, and `change` is not.
#[derive(Drop)]
pub struct FlippingMemory<'a> {
    bytes: &'a mut [u8],
    sectors: u32,
    ghost count: { sectors ≡ fitting bytes.now },
    ghost whole: { Whole (memory bytes.now true endless) } by { Prim.hlevel props },
}

impl<'a> FlippingMemory<'a> {
    ghost use Rattle.lookup_changing.specs.contracts.flipping.FlippingMemoryDevice.TheImpl.{ghosts as as_device};

    /// A device on `bytes`: whole sectors only, all good, with power.
    pub fn new(bytes: &'a mut [u8]) -> FlippingMemory<'a>
        ensures meaning { as_device.meaning result ≡ memory bytes.old true endless }
        ensures bytes { Bytes result.bytes.now }
    {
        know_bytes(bytes);
        let sectors = count_sectors(bytes);
        FlippingMemory { bytes, sectors }
    }

    /// Turns the byte b beside the extent into 255 - b, if there is one.
    pub fn flip(&mut self, extent: Extent)
        ensures bytes { self.new.bytes.now ≡ flipped self.old.bytes.now (beside extent) }
        ensures sectors { self.new.sectors ≡ self.old.sectors }
    {
        let place = place_beside(extent);
        if place < self.bytes.len() {
            self.bytes[place] = 255 - self.bytes[place];
        }
    }

    /// Fills `piece` with what the device holds at `place`.
    // Tried without: that a read leaves the device did not prove. Here it is lent shared, so it is known.
    fn fill(&self, place: u32, piece: &mut [u8])
        requires { within (fitting self.now.bytes.now) place (length piece.old) ≡ true }
        ensures { piece.new ≡ part (memory self.now.bytes.now true endless).bytes place (length piece.old) }
    {
        copy_out(self.bytes, place, piece);
    }
}

impl<'a> Device for FlippingMemory<'a> {
    ghost meaning = { λ d. memory d.bytes.now true endless };

    ghost whole = { λ d. d.whole };

    fn size(&self) -> u32 {
        self.sectors
    }

    fn state(&mut self, sector: u32) -> Result<(), DeviceFault> {
        if sector >= self.sectors {
            return Err(DeviceFault::Range);
        }
        Ok(())
    }

    fn read(&mut self, place: u32, piece: &mut [u8]) -> Result<(), DeviceFault> {
        if !is_within(self.sectors, place, piece.len()) {
            return Err(DeviceFault::Range);
        }
        self.fill(place, piece);
        Ok(())
    }
}

impl<'a> Changing for FlippingMemory<'a> {
    fn change(&mut self, extent: Extent) {
        self.flip(extent);
    }
}
