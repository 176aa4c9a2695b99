//! One call of a history.

ghost use Rattle.std.specs.Prelude.{List};
ghost use Rattle.history.specs.declared.calls.State.TheVariants.{Idle, Adding, Ready, Ended};
ghost use Rattle.history.specs.Events.{request, to_open, to_add, to_finish, to_publish};
ghost use Rattle.history.specs.Histories.{Moves};

use crate::played::Played;
use building::entries::Entry;
use device::device::{Device, WritableDevice};
use history::calls::{Call, State};
use shelf::opening::open;
use shelf::states::{Draft, Finished, Shelf};

/// Opens the shelf of a device; the state at hand is let go.
fn reopen<D: Device>(d: &mut D, state: State) -> Played
    ensures moves { (es : List Entry) → Moves (D.Device.meaning d.old) state es to_open result.answer result.state (D.Device.meaning d.new) es }
{
    drop(state);
    match open(d) {
        Ok(shelf) => Played::done(State::Idle(shelf)),
        Err(fault) => Played::refused(State::Ended, fault),
    }
}

/// A call on a shelf at rest.
fn on_idle<D: WritableDevice>(d: &mut D, shelf: Shelf, call: Call<'_>) -> Played
    ensures moves { (es : List Entry) → Moves (D.Device.meaning d.old) (Idle shelf) es (request call.entry) result.answer result.state (D.Device.meaning d.new) es }
{
    match call {
        Call::Open => reopen(d, State::Idle(shelf)),
        Call::Begin => Played::done(State::Adding(shelf.begin())),
        Call::Add(_, _) | Call::Finish | Call::Publish | Call::Abandon => Played::unfit(State::Idle(
            shelf,
        )),
    }
}

/// Adds a record to a draft.
fn add_to<D: WritableDevice>(
    d: &mut D,
    entries: &mut [Entry],
    draft: Draft,
    key: &[u8],
    value: &[u8],
) -> Played
    ensures moves { Moves (D.Device.meaning d.old) (Adding draft) entries.old (to_add (record { key = key.entry.now; data' = value.now })) result.answer result.state (D.Device.meaning d.new) entries.new }
{
    match draft.add(d, entries, key, value) {
        Ok(next) => Played::done(State::Adding(next)),
        Err(refused) => Played::refused(State::Adding(refused.draft), refused.fault),
    }
}

/// Finishes a draft.
fn finish_draft<D: WritableDevice>(d: &mut D, entries: &[Entry], draft: Draft) -> Played
    ensures moves { Moves (D.Device.meaning d.old) (Adding draft) entries.now to_finish result.answer result.state (D.Device.meaning d.new) entries.now }
{
    match draft.finish(d, entries) {
        Ok(finished) => Played::done(State::Ready(finished)),
        Err(refused) => Played::refused(State::Adding(refused.draft), refused.fault),
    }
}

/// Publishes a finished draft.
fn publish_draft<D: WritableDevice>(d: &mut D, finished: Finished) -> Played
    ensures moves { (es : List Entry) → Moves (D.Device.meaning d.old) (Ready finished) es to_publish result.answer result.state (D.Device.meaning d.new) es }
{
    match finished.publish(d) {
        Ok(shelf) => Played::done(State::Idle(shelf)),
        Err(refused) => Played::refused(State::from(refused.draft), refused.fault),
    }
}

/// A call on a draft that is open for adding.
fn on_adding<D: WritableDevice>(
    d: &mut D,
    entries: &mut [Entry],
    draft: Draft,
    call: Call<'_>,
) -> Played
    ensures moves { Moves (D.Device.meaning d.old) (Adding draft) entries.old (request call.entry) result.answer result.state (D.Device.meaning d.new) entries.new }
{
    match call {
        Call::Open => reopen(d, State::Adding(draft)),
        Call::Add(key, value) => add_to(d, entries, draft, key, value),
        Call::Finish => finish_draft(d, entries, draft),
        Call::Abandon => Played::done(State::Idle(draft.abandon())),
        Call::Begin | Call::Publish => Played::unfit(State::Adding(draft)),
    }
}

/// A call on a finished draft.
fn on_ready<D: WritableDevice>(d: &mut D, finished: Finished, call: Call<'_>) -> Played
    ensures moves { (es : List Entry) → Moves (D.Device.meaning d.old) (Ready finished) es (request call.entry) result.answer result.state (D.Device.meaning d.new) es }
{
    match call {
        Call::Open => reopen(d, State::Ready(finished)),
        Call::Publish => publish_draft(d, finished),
        Call::Abandon => Played::done(State::Idle(finished.abandon())),
        Call::Begin | Call::Add(_, _) | Call::Finish => Played::unfit(State::Ready(finished)),
    }
}

/// A call where a mount has ended.
fn on_ended<D: WritableDevice>(d: &mut D, call: Call<'_>) -> Played
    ensures moves { (es : List Entry) → Moves (D.Device.meaning d.old) Ended es (request call.entry) result.answer result.state (D.Device.meaning d.new) es }
{
    match call {
        Call::Open => reopen(d, State::Ended),
        Call::Begin | Call::Add(_, _) | Call::Finish | Call::Publish | Call::Abandon =>
            Played::unfit(State::Ended),
    }
}

/// Makes one call on the state that the call before it left. A call that does not build on that state is not made.
pub fn play<D: WritableDevice>(
    d: &mut D,
    entries: &mut [Entry],
    state: State,
    call: Call<'_>,
) -> Played
    ensures moves { Moves (D.Device.meaning d.old) state entries.old (request call.entry) result.answer result.state (D.Device.meaning d.new) entries.new }
{
    match state {
        State::Idle(shelf) => on_idle(d, shelf, call),
        State::Adding(draft) => on_adding(d, entries, draft, call),
        State::Ready(finished) => on_ready(d, finished, call),
        State::Ended => on_ended(d, call),
    }
}
