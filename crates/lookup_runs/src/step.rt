//! Inner: one call of a run. What a call may change it takes apart from the rest: a next only the cursor, a fetch only the buffer, so
//! the signatures say what stays, which a struct of all of them would not.

ghost use Rattle.std.specs.Prelude.{◌≡◌, ℕ, ◌+◌, ◌-◌, ◌*◌, ◌/◌, ◌%◌, ◌^◌, ◌<◌, ◌≤◌};
ghost use Rattle.lookup_runs.specs.Runs.{found_by, NextMade, FetchMade, Stepped};

use crate::calls::{Answer, Call, Wanted};
use cdb::hashing::hash;
use device::device::Device;
use file::extents::Extent;
use lookup::calls::{fetch, next};
use lookup::cursors::{Cursor, Found};

/// The data that a call found, of those that are made.
fn found_by(answers: &[Answer], call: usize) -> Option<Found>
    ensures { result ≡ found_by answers.now call }
{
    answers.get(call)?.found()
}

/// A next with a key, which may be the key of the run or not.
fn next_with<D: Device>(d: &mut D, key: &[u8], cursor: &mut Cursor, other: &[u8]) -> Answer
    ensures made { NextMade (D.Device.meaning d.old) key.now cursor.old other.now result cursor.new }
    ensures same { D.Device.meaning d.new ≡ D.Device.meaning d.old }
{
    if other == key {
        return Answer::Next(next(d, cursor, key));
    }
    if hash(other) == hash(key) {
        return Answer::Skipped;
    }
    Answer::Next(next(d, cursor, other))
}

/// A fetch of data that one of the calls made found.
fn fetch_found<D: Device>(
    d: &mut D,
    extent: Extent,
    answers: &[Answer],
    wanted: Wanted,
    buffer: &mut [u8],
) -> Answer
    ensures made { FetchMade (D.Device.meaning d.old) extent answers.now buffer.old wanted result buffer.new }
    ensures same { D.Device.meaning d.new ≡ D.Device.meaning d.old }
{
    let Some(found) = found_by(answers, wanted.call) else {
        return Answer::Skipped;
    };
    let from = wanted.place;
    if from > buffer.len() || wanted.len > buffer.len() - from {
        return Answer::Skipped;
    }
    let part = &mut buffer[from..from + wanted.len];
    Answer::Fetch(fetch(d, extent, found, wanted.offset, part))
}

/// One call of a run, after those that are made.
pub(crate) fn step<D: Device>(
    d: &mut D,
    extent: Extent,
    key: &[u8],
    cursor: &mut Cursor,
    call: Call<'_>,
    answers: &[Answer],
    buffer: &mut [u8],
) -> Answer
    ensures stepped { Stepped (D.Device.meaning d.old) extent key.now answers.now cursor.old buffer.old call.entry result cursor.new buffer.new }
    ensures same { D.Device.meaning d.new ≡ D.Device.meaning d.old }
{
    match call {
        Call::Next(other) => next_with(d, key, cursor, other),
        Call::Fetch(wanted) => fetch_found(d, extent, answers, wanted, buffer),
    }
}
