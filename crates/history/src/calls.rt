//! The calls of a history, their answers, and the states between them.

use shelf::fault::ShelfFault;
use shelf::states::{Draft, Finished, Shelf};

/// What a call leaves for the next one.
#[derive(Drop)]
pub enum State {
    /// A shelf at rest.
    Idle(Shelf),
    /// A draft that is open for adding.
    Adding(Draft),
    /// A finished draft.
    Ready(Finished),
    /// Nothing: the mount has ended, and an open begins the next.
    Ended,
}

/// What a refused publish leaves, by the draft that it gives back.
impl From<Option<Finished>> for State {
    ghost use Rattle.std.specs.Prelude.{◌≡◌};
    ghost use Rattle.history.specs.Histories.{back_to};

    ghost from_gives = { λ draft state. state ≡ back_to draft };

    fn from(draft: Option<Finished>) -> State {
        draft.map_or(State::Ended, State::Ready)
    }
}

/// A call of a history.
// Calls are data, so that the laws can speak of every list of them.
#[derive(Clone, Copy)]
pub enum Call<'a> {
    Open,
    Begin,
    /// With a key and its data.
    Add(&'a [u8], &'a [u8]),
    Finish,
    Publish,
    Abandon,
}

/// What a call answered.
// Three names say more than a `Result` in an `Option`.
#[derive(Clone, Copy)]
pub enum Answer {
    Done,
    Refused(ShelfFault),
    /// The call was not made: it does not build on the state at hand.
    Unfit,
}
