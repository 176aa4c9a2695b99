//! Any list of lookup calls, on a device that may change between them.

ghost use Rattle.std.specs.Prelude.{◌≡◌, ℕ, ◌+◌, ◌-◌, ◌*◌, ◌/◌, ◌%◌, ◌^◌, ◌<◌, ◌≤◌, length, OnErr};
ghost use Rattle.lookup_runs.specs.Runs.{Keeps, RanLast, Runs};
ghost use Rattle.lookup_runs.specs.Laws.{LookupsGiveRecords};

use crate::calls::{Answer, Call, RunFault};
use crate::changing::Changing;
use crate::step::step;
use file::extents::Extent;
use lookup::calls::start;
use lookup::cursors::Cursor;

/// The calls of a run, from a cursor on.
// Answers lie in a list of their own: calls are lent shared, and there is no heap for the answers.
fn run_from<D: Changing>(
    d: &mut D,
    extent: Extent,
    key: &[u8],
    cursor: Cursor,
    calls: &[Call<'_>],
    buffer: &mut [u8],
    answers: &mut [Answer],
)
    requires long { length answers.old ≡ length calls.now }
    ensures ran { RanLast (D.Device.meaning d.old) extent key.now cursor buffer.old calls.now answers.new buffer.new }
    ensures kept { Keeps extent (D.Device.meaning d.old) (D.Device.meaning d.new) }
{
    let mut at = cursor;
    for (i, call) in calls.iter().enumerate() {
        d.change(extent);
        answers[i] = step(d, extent, key, &mut at, *call, &answers[..i], buffer);
    }
}

/// A lookup of a key in the file of an extent: start, then any list of calls, before each of which the device may change.
/// It makes no call where there are not as many answers as calls, or the start is refused.
pub fn run<D: Changing>(
    d: &mut D,
    extent: Extent,
    key: &[u8],
    calls: &[Call<'_>],
    buffer: &mut [u8],
    answers: &mut [Answer],
) -> Result<(), RunFault>
    ensures runs { Runs (D.Device.meaning d.old) extent key.now calls.now answers.old buffer.old result answers.new buffer.new }
    ensures law { LookupsGiveRecords (D.Device.meaning d.old) extent key.now calls.now answers.old buffer.old result answers.new buffer.new }
    ensures kept { Keeps extent (D.Device.meaning d.old) (D.Device.meaning d.new) }
    ensures refused { OnErr result (D.Device.meaning d.new ≡ D.Device.meaning d.old) }
{
    if answers.len() != calls.len() {
        return Err(RunFault::Room);
    }
    let cursor = start(d, extent, key).map_err(RunFault::Start)?;
    run_from(d, extent, key, cursor, calls, buffer, answers);
    Ok(())
}
