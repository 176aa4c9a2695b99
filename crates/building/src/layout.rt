//! Inner: where each table goes, and how many slots it has.

ghost use Rattle.std.specs.Prelude.{ℕ, ◌*◌, ◌^◌, ◌<◌, length};
ghost use Rattle.building.specs.Builds.{TablesOf};

use crate::entries::Entry;

/// A table of a file: how far behind the records it starts, and how many slots it has.
#[derive(Clone, Copy)]
pub(crate) struct Table {
    pub offset: u32,
    pub slots: u32,
}

impl Table {
    /// A table without slots, right behind the records.
    pub(crate) const EMPTY: Table = Table {
        offset: 0,
        slots: 0,
    };
}

/// The tables of the entries: each has two slots for an entry, and they follow one another.
pub(crate) fn tables_of(entries: &[Entry]) -> [Table; 256]
    requires { 16 * length entries.now < 2 ^ 32 }
    ensures { TablesOf result entries.now }
{
    let mut tables = [Table::EMPTY; 256];
    for entry in entries {
        tables[entry.table()].slots += 2;
    }
    let mut next = 0;
    for table in tables.iter_mut() {
        table.offset = next;
        next += 8 * table.slots;
    }
    tables
}
