//! Inner: rules 5 to 7, the tables.

ghost use Rattle.std.specs.Prelude.{◌≡◌, ℕ, ◌+◌, ◌-◌, ◌*◌, ◌/◌, ◌%◌, ◌^◌, ◌<◌, ◌≤◌, length, MatchOption, MatchResult};
ghost use Rattle.cdb.specs.Rules.{First, Each};
ghost use Rattle.faults.specs.declared.file.FileFault.TheVariants.{Count, Full};
ghost use Rattle.file.specs.ReadableFiles.{contents, SameFile};
ghost use Rattle.scanning.specs.Headers.{TablesInside};
ghost use Rattle.auditing.specs.Tables.{filled_in, Counted, Room, ClearAt, TableClear, RefusesTable, RefusesSlot, Ruled};

use device::device::Device;
use faults::file::FileFault;
use file::readable_file::ReadableFile;

/// How many of the slots of a table are filled.
fn count_filled<D: Device>(file: &mut ReadableFile<'_, D>, pos: u32, len: u32) -> u32
    requires { pos + 8 * len ≤ length (contents file.old) }
    ensures answer { result ≡ filled_in (contents file.old) pos len }
    ensures same { SameFile file.old file.new }
{
    // A loop: each slot is read through the lent file, which the closure of a filter would hold.
    let mut filled = 0;
    for i in 0..len {
        if file.words(pos + 8 * i).second > 0 {
            filled += 1;
        }
    }
    filled
}

/// Refuses the first table whose filled slots are not as many as its records.
fn check_counts<D: Device>(
    file: &mut ReadableFile<'_, D>,
    counts: &[u32; 256],
) -> Result<(), FileFault>
    requires { TablesInside (contents file.old) }
    ensures answer { MatchResult result (λ _. Each (Counted (contents file.old) counts.now)) (λ x. RefusesTable (contents file.old) (Counted (contents file.old) counts.now) Count x) }
    ensures same { SameFile file.old file.new }
{
    for (t, &count) in counts.iter().enumerate() {
        let table = t as u32;
        let entry = file.words(8 * table);
        if count_filled(file, entry.first, entry.second) != count {
            return Err(FileFault::Count(table, entry.first));
        }
    }
    Ok(())
}

/// Refuses the first table that has slots, and no more than records.
// One function with the test as a closure would be no plainer: it would have to ask of the closure what these two clauses say.
fn check_room<D: Device>(
    file: &mut ReadableFile<'_, D>,
    counts: &[u32; 256],
) -> Result<(), FileFault>
    requires { TablesInside (contents file.old) }
    ensures answer { MatchResult result (λ _. Each (Room (contents file.old) counts.now)) (λ x. RefusesTable (contents file.old) (Room (contents file.old) counts.now) Full x) }
    ensures same { SameFile file.old file.new }
{
    for (t, &count) in counts.iter().enumerate() {
        let table = t as u32;
        let entry = file.words(8 * table);
        if entry.second > 0 && count >= entry.second {
            return Err(FileFault::Full(table, entry.first));
        }
    }
    Ok(())
}

/// The first slot of a table that is empty with another hash than 0.
// A range, since each turn reads the lent file and may refuse.
fn stained_slot<D: Device>(file: &mut ReadableFile<'_, D>, pos: u32, len: u32) -> Option<u32>
    requires { pos + 8 * len ≤ length (contents file.old) }
    ensures answer { MatchOption result ((i : ℕ) → i < len → ClearAt (contents file.old) pos i) (λ i. First len (ClearAt (contents file.old) pos) i) }
    ensures same { SameFile file.old file.new }
{
    for i in 0..len {
        let slot = file.words(pos + 8 * i);
        if slot.second == 0 && slot.first != 0 {
            return Some(i);
        }
    }
    None
}

/// Refuses the first such slot of the file, by table and place.
// A range, since each turn reads the lent file and may refuse.
fn check_clear<D: Device>(file: &mut ReadableFile<'_, D>) -> Result<(), FileFault>
    requires { TablesInside (contents file.old) }
    ensures answer { MatchResult result (λ _. Each (TableClear (contents file.old))) (λ x. RefusesSlot (contents file.old) x) }
    ensures same { SameFile file.old file.new }
{
    for t in 0..256u32 {
        let entry = file.words(8 * t);
        if let Some(i) = stained_slot(file, entry.first, entry.second) {
            return Err(FileFault::Stained(t, entry.first + 8 * i));
        }
    }
    Ok(())
}

/// Rules 5 to 7.
pub(crate) fn check_tables<D: Device>(
    file: &mut ReadableFile<'_, D>,
    counts: &[u32; 256],
) -> Result<(), FileFault>
    requires { TablesInside (contents file.old) }
    ensures answer { Ruled (contents file.old) counts.now result }
    ensures same { SameFile file.old file.new }
{
    check_counts(file, counts)?;
    check_room(file, counts)?;
    check_clear(file)
}
