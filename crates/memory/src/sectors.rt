//! Inner: the sectors of some bytes, for both kinds of memory. The callers prove the bounds.

ghost use Rattle.std.specs.Prelude.{◌≡◌, ℕ, ◌*◌, true, length, take};
ghost use Rattle.byte_lists.specs.Bytes.{part};
ghost use Rattle.device.specs.Meanings.{endless, Whole, within};
ghost use Rattle.memory.specs.Memories.{memory, fitting};

use byte_lists::slices::{copy_part, know_bytes};

/// As many sectors as fit.
pub fn count_sectors(bytes: &[u8]) -> u32
    ensures count { result ≡ fitting bytes.now }
    ensures whole { Whole (memory bytes.now true endless) }
{
    know_bytes(bytes);
    (bytes.len() / 512).min(8388607) as u32
}

/// Fills a piece with what the sectors hold at its place.
pub fn copy_out(bytes: &[u8], place: u32, piece: &mut [u8])
    requires { within (fitting bytes.now) place (length piece.old) ≡ true }
    ensures { piece.new ≡ part (take (512 * fitting bytes.now) bytes.now) place (length piece.old) }
{
    copy_part(bytes, place as usize, piece);
}
