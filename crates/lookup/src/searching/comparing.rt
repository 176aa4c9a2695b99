//! Whether the key that is looked up is the key of a record.

ghost use Rattle.std.specs.Prelude.{◌≡◌, ℕ, ◌+◌, ◌-◌, ◌*◌, ◌/◌, ◌%◌, ◌^◌, ◌<◌, ◌≤◌, length, slice_range, Decides};
ghost use Rattle.lookup.specs.Keys.{Compared};
ghost use Rattle.lookup.specs.Searches.{Kept};

use super::Search;
use byte_lists::slices::{equal, word_at};
use device::device::Device;
use device::pieces::{Piece, Pieces};
use faults::device::DeviceFault;

/// The longest key that is compared by one read of this length, where so much lies in one sector and in the file.
const SHORT: usize = 32;

/// Whether two pieces of one length hold the same bytes: a word at a time, and last the word at their end.
// Tried: with the library's comparison of slices a whole lookup takes a tenth to a fifth more time, since keys are short.
fn same_bytes(a: &[u8], b: &[u8]) -> bool
    requires { length a.now ≡ length b.now }
    ensures { Decides result (a.now ≡ b.now) }
{
    let n = a.len();
    if n < 4 {
        return equal(a, b);
    }
    let mut i = 0;
    while i + 4 < n {
        if word_at(a, i) != word_at(b, i) {
            return false;
        }
        i += 4;
    }
    word_at(a, n - 4) == word_at(b, n - 4)
}

impl<'d, 'k, D: Device> Search<'d, 'k, D> {
    /// Whether a piece of the key stands at the piece's place on the device.
    fn same_piece(&mut self, piece: Piece, buffer: &mut [u8; 512]) -> Result<bool, DeviceFault>
        requires key { piece.to ≤ length self.old.key.now }
        requires within { piece.place + (piece.to - piece.from) ≤ self.old.cursor.extent.start + self.old.cursor.extent.len }
        ensures compared { (p : ℕ) → piece.place ≡ self.old.cursor.extent.start + p
            → Compared (D.Device.meaning self.old.device.now) self.old.cursor.extent p (slice_range self.old.key.now piece.from piece.to) result }
        ensures kept { Kept self.old self.new }
    {
        let want = &self.key[piece.from..piece.to];
        let bytes = &mut buffer[..want.len()];
        self.device.read(piece.place, bytes)?;
        Ok(same_bytes(bytes, want))
    }

    /// Whether the key stands at a place of the file: one read for each sector, and no further than the first that differs.
    fn same_across(&mut self, place: u32) -> Result<bool, DeviceFault>
        requires within { place + length self.old.key.now ≤ self.old.cursor.extent.len }
        ensures compared { Compared (D.Device.meaning self.old.device.now) self.old.cursor.extent place self.old.key.now result }
        ensures kept { Kept self.old self.new }
    {
        let mut buffer = [0; 512];
        for piece in Pieces::new(self.cursor.extent.start + place, self.key.len()) {
            let same = self.same_piece(piece, &mut buffer)?;
            if !same {
                return Ok(false);
            }
        }
        Ok(true)
    }

    /// Whether a short key stands at a place of the file, by one read of a known length, which takes the least time.
    fn same_short(&mut self, place: u32) -> Result<bool, DeviceFault>
        requires short { (0 < length self.old.key.now) × (length self.old.key.now ≤ 32) }
        requires one { (self.old.cursor.extent.start + place) % 512 + 32 ≤ 512 }
        requires within { place + 32 ≤ self.old.cursor.extent.len }
        ensures compared { Compared (D.Device.meaning self.old.device.now) self.old.cursor.extent place self.old.key.now result }
        ensures kept { Kept self.old self.new }
    {
        let mut bytes = [0; SHORT];
        self.device
            .read(self.cursor.extent.start + place, &mut bytes)?;
        Ok(same_bytes(&bytes[..self.key.len()], self.key))
    }

    /// Whether the key stands at a place of the file.
    pub(super) fn compare(&mut self, place: u32) -> Result<bool, DeviceFault>
        requires within { place + length self.old.key.now ≤ self.old.cursor.extent.len }
        ensures compared { Compared (D.Device.meaning self.old.device.now) self.old.cursor.extent place self.old.key.now result }
        ensures kept { Kept self.old self.new }
    {
        let extent = self.cursor.extent;
        let is_short = self.key.len() > 0 && self.key.len() <= SHORT;
        let has_room = extent.len >= SHORT as u32 && place <= extent.len - SHORT as u32;
        if is_short && has_room && (extent.start + place) % 512 <= 512 - SHORT as u32 {
            return self.same_short(place);
        }
        self.same_across(place)
    }
}
