//! Inner: what the crates above do with slices of bytes. The callers prove the bounds.

ghost use Rattle.std.specs.Prelude.{◌≡◌, ℕ, ◌+◌, ◌-◌, ◌*◌, ◌/◌, ◌%◌, ◌^◌, ◌<◌, ◌≤◌, ◌++◌, length, Decides};
ghost use Rattle.byte_lists.specs.Bytes.{Bytes, part, laid, word, word_at};

/// Makes it known to a proof that a slice holds bytes. The compiler leaves nothing of it.
pub fn know_bytes(bytes: &[u8])
    ensures { Bytes bytes.now }
{
    for b in bytes {
        let _byte = *b;
        prove!(_byte == *b);
    }
}

/// The word at a place of some bytes.
// No conversion of a slice into an array: that would be unwrapped, which is no plainer.
pub fn word_at(bytes: &[u8], place: usize) -> u32
    requires { place + 4 ≤ length bytes.now }
    ensures { result ≡ word_at bytes.now place }
{
    u32::from_le_bytes([
        bytes[place],
        bytes[place + 1],
        bytes[place + 2],
        bytes[place + 3],
    ])
}

/// The bytes of two words.
// Below the crate that has `Words`, so no `From` of it.
pub fn two_words(first: u32, second: u32) -> [u8; 8]
    ensures { result ≡ word first ++ word second }
{
    let [a, b, c, d] = first.to_le_bytes();
    let [e, f, g, h] = second.to_le_bytes();
    [a, b, c, d, e, f, g, h]
}

/// Fills `piece` with the bytes of `from` at `start`.
pub fn copy_part(from: &[u8], start: usize, piece: &mut [u8])
    requires { start + length piece.old ≤ length from.now }
    ensures { piece.new ≡ part from.now start (length piece.old) }
{
    let n = piece.len();
    piece.copy_from_slice(&from[start..start + n]);
}

/// Lays `piece` over the bytes of `to` at `start`.
pub fn lay_over(to: &mut [u8], start: usize, piece: &[u8])
    requires { start + length piece.now ≤ length to.old }
    ensures { to.new ≡ laid to.old start piece.now }
{
    let n = piece.len();
    to[start..start + n].copy_from_slice(piece);
}

/// Whether two slices hold the same bytes.
// It is `==`, with its answer in the words of the definitions, which the loops that compare files and keys cite.
pub fn equal(a: &[u8], b: &[u8]) -> bool
    ensures { Decides result (a.now ≡ b.now) }
{
    a == b
}
