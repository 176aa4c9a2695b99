//! What a call of a history leaves and answers.

ghost use Rattle.std.specs.Prelude.{◌≡◌};
ghost use Rattle.history.specs.declared.calls.Answer.TheVariants.{Done, Refused, Unfit};

use history::calls::{Answer, State};
use shelf::fault::ShelfFault;

/// The state for the next call, and the answer.
#[derive(Drop)]
pub struct Played {
    pub state: State,
    pub answer: Answer,
}

impl Played {
    /// A call that is done.
    pub(crate) fn done(state: State) -> Played
        ensures { result ≡ record { state = state; answer = Done } }
    {
        Played {
            state,
            answer: Answer::Done,
        }
    }

    /// A call that is refused.
    pub(crate) fn refused(state: State, fault: ShelfFault) -> Played
        ensures { result ≡ record { state = state; answer = Refused fault } }
    {
        Played {
            state,
            answer: Answer::Refused(fault),
        }
    }

    /// A call that is not made.
    pub(crate) fn unfit(state: State) -> Played
        ensures { result ≡ record { state = state; answer = Unfit } }
    {
        Played {
            state,
            answer: Answer::Unfit,
        }
    }
}
