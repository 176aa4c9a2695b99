//! Refused calls, with the state that comes back.

use crate::fault::ShelfFault;
use crate::states::{Draft, Finished};

/// A refused call on a draft, with the draft as it comes back.
// The calls do not refuse by `?`: a refusal gives the draft back, and a closure for it would take the draft from the code behind.
#[derive(Drop)]
pub struct Refused<S> {
    pub fault: ShelfFault,
    pub draft: S,
}

/// A refused add, with its draft.
pub type AddRefused = Refused<Draft>;

/// A refused finish, with its draft, open for adding.
pub type FinishRefused = Refused<Draft>;

/// A refused publish, with its finished draft, unless 21 ended it.
pub type PublishRefused = Refused<Option<Finished>>;
