//! The calls for C. bench/constdb.h says what a C program may rely on.
#![tactic(auto)]

// A crate is a library or a static library, and `text_vectors` uses the calls as a library: so both have these contracts.

ghost use Rattle.c_calls.specs.Exports.{AuditTold, FindTold};

use c_calls::exports;

/// Audits a file in memory: 0 and three counts, or the number of the refusal with its table and place.
#[unsafe(no_mangle)]
pub extern "C" fn constdb_audit(
    memory: &[u8],
    len: u32,
    records: &mut u32,
    slots: &mut u32,
    probes: &mut u64,
    table: &mut u32,
    place: &mut u64,
) -> u32
    ensures { AuditTold memory.now len result records.old records.new slots.old slots.new probes.old probes.new table.old table.new place.old place.new }
{
    exports::constdb_audit(memory, len, records, slots, probes, table, place)
}

/// Looks up the data of record `n` of a key: 0 and their place and length, both 0 where there are none, or the number of the
/// refusal, with both as they were.
#[unsafe(no_mangle)]
pub extern "C" fn constdb_find(
    memory: &[u8],
    len: u32,
    key: &[u8],
    n: u32,
    place: &mut u32,
    data_len: &mut u32,
) -> u32
    ensures { FindTold memory.now len key.now n result place.old place.new data_len.old data_len.new }
{
    exports::constdb_find(memory, len, key, n, place, data_len)
}
