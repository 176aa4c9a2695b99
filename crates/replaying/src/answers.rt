//! What the steps of a script answered.

ghost use Rattle.std.specs.Prelude.{◌≡◌, IfOk, map};
ghost use Rattle.replaying.specs.Replays.{answer_for};

use faults::report::Report;
use history::calls::Answer as Reply;
use playing::steps::Outcome;
use script::answer::Answer;
use std::alloc::{AllocError, Global};

/// What is told of a step's outcome.
pub fn answer_of(outcome: Outcome) -> Answer
    ensures { result ≡ answer_for outcome }
{
    match outcome {
        Outcome::Answered(Reply::Done) => Answer::Done,
        Outcome::Answered(Reply::Refused(fault)) => Answer::Refused(Report::from(fault)),
        Outcome::Answered(Reply::Unfit) => Answer::Unfit,
        Outcome::Got(Ok(data)) => Answer::Data(data),
        Outcome::Got(Err(fault)) => Answer::Refused(Report::from(fault)),
        Outcome::Turned(Ok(())) => Answer::Done,
        Outcome::Turned(Err(report)) => Answer::Refused(report),
        Outcome::Scribbled => Answer::Done,
        Outcome::Skipped => Answer::Unfit,
    }
}

/// What is told of the outcomes of steps.
pub fn answers_of(alloc: Global, log: Vec<Outcome>) -> Result<Vec<Answer>, AllocError>
    ensures { IfOk result (λ v. v.items ≡ map answer_for log.items) }
{
    log.into_iter().map(answer_of).collect(alloc)
}
