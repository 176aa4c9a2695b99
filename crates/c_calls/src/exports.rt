//! What the calls for C do; the crate `c_calls_c` exports them. C is told by numbers, and through the places that it lends.

ghost use Rattle.c_calls.specs.Exports.{AuditTold, FindTold};

use crate::in_memory::{audit_in_memory, find_in_memory};
use faults::report::Report;
use lookup::cursors::Found;

/// Audits a file in memory: 0 and three counts, or the number of the refusal with its table and place.
pub fn constdb_audit(
    memory: &[u8],
    len: u32,
    records: &mut u32,
    slots: &mut u32,
    probes: &mut u64,
    table: &mut u32,
    place: &mut u64,
) -> u32
    ensures { AuditTold memory.now len result records.old records.new slots.old slots.new probes.old probes.new table.old table.new place.old place.new }
{
    match audit_in_memory(memory, len) {
        Ok(counts) => {
            *records = counts.records;
            *slots = counts.slots;
            *probes = counts.probes;
            0
        }
        Err(fault) => {
            let report = Report::from(fault);
            *table = report.table;
            *place = report.place;
            report.number
        }
    }
}

/// Looks up the data of record `n` of a key: 0 and their place and length, both 0 where there are none, or the number of the
/// refusal, with both as they were.
pub fn constdb_find(
    memory: &[u8],
    len: u32,
    key: &[u8],
    n: u32,
    place: &mut u32,
    data_len: &mut u32,
) -> u32
    ensures { FindTold memory.now len key.now n result place.old place.new data_len.old data_len.new }
{
    match find_in_memory(memory, len, key, n) {
        Ok(found) => {
            let data = found.unwrap_or(Found { place: 0, len: 0 });
            *place = data.place;
            *data_len = data.len;
            0
        }
        Err(fault) => Report::from(fault).number,
    }
}
