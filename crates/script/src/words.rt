//! Inner: the words of a line.

ghost use Rattle.std.specs.Prelude.{◌≡◌, map, MatchResult};
ghost use Rattle.std.specs.List.{AllByRecursion};
ghost use Rattle.script.specs.Words as spec;

use crate::reason::Reason;
use arrayvec::ArrayVec;

/// Whether a comment starts with a piece of a line.
fn starts_comment(piece: &[u8]) -> bool
    ensures { result ≡ spec.starts_comment piece.now }
{
    matches!(piece, [b'#', ..])
}

/// The words of a line, up to a comment. Spaces in front of a comment or at the end of the line say nothing.
pub(crate) fn split_words<'a>(line: &'a [u8]) -> Result<ArrayVec<&'a [u8], 4>, Reason>
    ensures { MatchResult result (λ ws. (map (λ w. w.now) ws.items ≡ spec.words line.now) × AllByRecursion spec.HasByte (map (λ w. w.now) ws.items)) (λ reason. spec.Unreadable (spec.words line.now) reason) }
{
    let mut words = ArrayVec::new();
    let mut gap = false;
    for piece in line.split(|byte| *byte == b' ') {
        if starts_comment(piece) {
            break;
        }
        if piece.is_empty() {
            gap = true;
            continue;
        }
        if gap {
            return Err(Reason::SpaceTooMany);
        }
        if words.is_full() {
            return Err(Reason::TooManyWords);
        }
        words.push(piece);
    }
    Ok(words)
}
