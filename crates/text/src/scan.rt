//! Inner: one record of a text, or its end.

ghost use Rattle.std.specs.Prelude.{◌≡◌, ◌≤◌, length};
ghost use Rattle.text.specs.Scans.{Scans};

use crate::fault::TextFault;
use crate::span::Span;
use crate::state::State;

/// The record that starts at a place, or none if the text ends there. A text is refused at the first byte that no text has there, or at its length if it ends early.
pub(crate) fn scan(text: &[u8], start: usize) -> Result<Option<Span>, TextFault>
    requires { start ≤ length text.now }
    ensures { Scans text.now start result }
{
    let mut state = State::Start;
    let mut at = start;
    // How far to go is what the state says, so no range or iterator is plainer.
    while at < text.len() {
        state = state.after(text[at]).ok_or(TextFault::Malformed(at))?;
        at += 1;
        if let State::Record(key, data) = state {
            return Ok(Some(Span {
                key,
                data,
                next: at,
            }));
        }
        let skip = state.skips();
        if text.len() - at < skip {
            return Err(TextFault::Malformed(text.len()));
        }
        at += skip;
    }
    match state {
        State::End => Ok(None),
        _ => Err(TextFault::Malformed(text.len())),
    }
}
