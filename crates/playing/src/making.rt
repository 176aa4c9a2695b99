//! Inner: one step of a run.

ghost use Rattle.std.specs.Prelude.{◌≡◌, slice_set, Decides};
ghost use Rattle.playing.specs.Steps.{Shows, Elsewhere};
ghost use Rattle.playing.specs.Made.{Makes, MadeBy, MadeHere, MadeOr, MakesOr};
ghost use Rattle.playing.specs.declared.steps.Step.TheVariants as step;

use crate::bench::Bench;
use crate::playing::play;
use crate::steps::{Outcome, Step};
use building::entries::Entry;
use device::device::{Device, WritableDevice};
use file::extents::Extent;
use gathering::gather::{GatherFault, gather};
use history::calls::{Answer, Call, State};
use shelf::formatting::format;
use std::alloc::{AllocError, Global};

/// A device, and the state of its shelf.
#[derive(Drop)]
pub struct Stage<D> {
    pub device: D,
    pub state: State,
}

/// What a step left and answered.
#[derive(Drop)]
pub struct Made<D> {
    pub stage: Stage<D>,
    pub outcome: Outcome,
}

impl<D> Made<D> {
    /// What a step left and answered.
    fn new(device: D, state: State, outcome: Outcome) -> Made<D>
        ensures { result ≡ record { stage = record { device = device; state = state }; outcome = outcome } }
    {
        Made {
            stage: Stage { device, state },
            outcome,
        }
    }
}

/// The extent of the live file, unless the mount has ended.
fn live_extent(state: &State) -> Option<Extent>
    ensures { Shows state.now result }
{
    match state {
        State::Idle(shelf) => Some(shelf.live()),
        State::Adding(draft) => Some(draft.live()),
        State::Ready(finished) => Some(finished.live()),
        State::Ended => None,
    }
}

/// Formats the device.
fn make_format<D: Bench>(stage: Stage<D>) -> Made<D>
    ensures made { MadeBy D.Bench.turns D.Bench.starts D.Device.meaning stage step.Format result }
{
    let Stage { mut device, state } = stage;
    drop(state);
    match format(&mut device) {
        Ok(shelf) => Made::new(device, State::Idle(shelf), Outcome::Answered(Answer::Done)),
        Err(fault) => Made::new(
            device,
            State::Ended,
            Outcome::Answered(Answer::Refused(fault)),
        ),
    }
}

/// Makes a call on the device.
fn make_call<D: Bench>(stage: Stage<D>, entries: &mut [Entry], call: Call<'_>) -> Made<D>
    ensures made { MadeHere D.Bench.turns D.Bench.starts D.Device.meaning stage entries.old (step.Call call.entry) result entries.new }
{
    let Stage { mut device, state } = stage;
    let played = play(&mut device, entries, state, call);
    Made::new(device, played.state, Outcome::Answered(played.answer))
}

/// Whether a call is made on another device: it is no open, and the other device has another size.
fn goes_elsewhere<D: Device, E: Device>(device: &D, other: &E, call: Call<'_>) -> bool
    ensures { Decides result (Elsewhere (D.Device.meaning device.now) (E.Device.meaning other.now) call.entry) }
{
    match call {
        Call::Open => false,
        Call::Begin | Call::Add(_, _) | Call::Finish | Call::Publish | Call::Abandon => {
            other.size() != device.size()
        }
    }
}

/// Makes a call on another device, if it has another size and the call is no open.
fn make_elsewhere<D: Bench, E: WritableDevice>(
    stage: Stage<D>,
    other: &mut E,
    entries: &mut [Entry],
    call: Call<'_>,
) -> Made<D>
    ensures made { Makes D.Bench.turns D.Bench.starts D.Device.meaning stage (E.Device.meaning other.old) entries.old (step.Elsewhere call.entry) result (E.Device.meaning other.new) entries.new }
{
    if !goes_elsewhere(&stage.device, other, call) {
        return Made {
            stage,
            outcome: Outcome::Skipped,
        };
    }
    let Stage { device, state } = stage;
    let played = play(other, entries, state, call);
    Made::new(device, played.state, Outcome::Answered(played.answer))
}

/// Looks all data of a key up, on the live extent.
fn make_get<D: Bench + Drop>(
    alloc: Global,
    stage: Stage<D>,
    key: &[u8],
) -> Result<Made<D>, AllocError>
    ensures made { MadeOr D.Bench.turns D.Bench.starts D.Device.meaning stage (step.Get key.entry) result }
{
    let Some(extent) = live_extent(&stage.state) else {
        return Ok(Made {
            stage,
            outcome: Outcome::Skipped,
        });
    };
    let Stage { mut device, state } = stage;
    match gather(alloc, &mut device, extent, key) {
        Ok(all) => Ok(Made::new(device, state, Outcome::Got(Ok(all)))),
        Err(GatherFault::File(fault)) => Ok(Made::new(device, state, Outcome::Got(Err(fault)))),
        Err(GatherFault::Memory(error)) => Err(error),
    }
}

/// Something becomes of the device.
fn make_turn<D: Bench>(stage: Stage<D>, turn: &D::Turn) -> Made<D>
    ensures made { MadeBy D.Bench.turns D.Bench.starts D.Device.meaning stage (step.Turn turn.now) result }
{
    let Stage { device, state } = stage;
    let turned = device.turn(turn);
    Made::new(turned.device, state, Outcome::Turned(turned.answer))
}

/// The mount ends, and the device is mounted again.
fn make_remount<D: Bench>(stage: Stage<D>, turn: &D::Turn) -> Made<D>
    ensures made { MadeBy D.Bench.turns D.Bench.starts D.Device.meaning stage (step.Remount turn.now) result }
{
    let Stage { device, state } = stage;
    drop(state);
    let turned = device.remount(turn);
    Made::new(turned.device, State::Ended, Outcome::Turned(turned.answer))
}

/// An entry is overwritten, if there is such an entry.
fn scribble(entries: &mut [Entry], index: usize, entry: Entry)
    ensures scribbled { entries.new ≡ slice_set entries.old index entry }
{
    if index < entries.len() {
        entries[index] = entry;
    }
}

/// Makes one step.
pub(crate) fn make<D: Bench + Drop, E: WritableDevice>(
    alloc: Global,
    stage: Stage<D>,
    other: &mut E,
    entries: &mut [Entry],
    step: &Step<'_, D::Turn>,
) -> Result<Made<D>, AllocError>
    ensures made { MakesOr D.Bench.turns D.Bench.starts D.Device.meaning stage (E.Device.meaning other.old) entries.old step.now result (E.Device.meaning other.new) entries.new }
{
    match step {
        Step::Format => Ok(make_format(stage)),
        Step::Call(call) => Ok(make_call(stage, entries, *call)),
        Step::Elsewhere(call) => Ok(make_elsewhere(stage, other, entries, *call)),
        Step::Get(key) => make_get(alloc, stage, key),
        Step::Turn(turn) => Ok(make_turn(stage, turn)),
        Step::Remount(turn) => Ok(make_remount(stage, turn)),
        Step::Scribble(index, entry) => {
            scribble(entries, *index, *entry);
            Ok(Made {
                stage,
                outcome: Outcome::Scribbled,
            })
        }
    }
}
