//! What is refused of a file.

ghost use Rattle.std.specs.Prelude.{◌≡◌};
ghost use Rattle.std.specs.Result.{result_map_both};
ghost use Rattle.faults.specs.declared.file.FileFault.TheVariants.{Device as by_device};
ghost use Rattle.faults.specs.Reports.{file_report, located};

use crate::device::DeviceFault;
use crate::report::Report;

/// A fault from below, with the table and the place of the file at which it came; 256 and 0 where none is meant.
// 256 for no table, as in a report, so that a place reads the same in both.
#[derive(Clone, Copy, PartialEq, Eq, Debug)]
pub struct Located<F> {
    pub fault: F,
    pub table: u32,
    pub place: u64,
}

/// A file's refusal.
#[derive(Clone, Copy, PartialEq, Eq, Debug)]
pub enum FileFault {
    /// The device's refusal, whole: 11, 21 or 22.
    Device(Located<DeviceFault>),
    /// 1: the file is shorter than its header; its length.
    Short(u32),
    /// 2: a header entry is not as it should be; its table.
    Entry(u32),
    /// 3: a record passes the end of the records; its place.
    Record(u32),
    /// 4: a search for a record does not meet it; its table and place.
    Lost(u32, u32),
    /// 5: a table has not as many filled slots as records; the table and its position.
    Count(u32, u32),
    /// 6: a table with slots has no empty one; the table and its position.
    Full(u32, u32),
    /// 7: an empty slot has a hash; its table and place.
    Stained(u32, u32),
    /// 8: a search meets a record before an earlier one of its key; its table and place.
    Order(u32, u32),
    /// 9: a slot or a record passes the end of the file; its table and place.
    Past(u32, u64),
    /// 11: outside the device, the file or the data.
    Range,
    /// 26: the cursor is one of another key.
    OtherKey,
}

/// Its number, table and place.
impl From<FileFault> for Report {
    ghost from_gives = { λ f r. r ≡ file_report f };

    fn from(fault: FileFault) -> Report {
        match fault {
            FileFault::Device(below) => Report::from(below.fault),
            FileFault::Short(len) => Report::placed(1, u64::from(len)),
            FileFault::Entry(table) => Report::in_table(2, table, 8 * u64::from(table)),
            FileFault::Record(place) => Report::placed(3, u64::from(place)),
            FileFault::Lost(table, place) => Report::in_table(4, table, u64::from(place)),
            FileFault::Count(table, place) => Report::in_table(5, table, u64::from(place)),
            FileFault::Full(table, place) => Report::in_table(6, table, u64::from(place)),
            FileFault::Stained(table, place) => Report::in_table(7, table, u64::from(place)),
            FileFault::Order(table, place) => Report::in_table(8, table, u64::from(place)),
            FileFault::Past(table, place) => Report::in_table(9, table, place),
            FileFault::Range => Report::bare(11),
            FileFault::OtherKey => Report::bare(26),
        }
    }
}

/// Adds the table and the place to a fault from below, for the `?` that follows.
pub fn add_place<T, F>(r: Result<T, F>, in_table: u32, at_place: u64) -> Result<T, Located<F>>
    ensures { result ≡ result_map_both (λ x. x) (λ f. located f in_table at_place) r }
{
    r.map_err(|fault| Located {
        fault,
        table: in_table,
        place: at_place,
    })
}

impl From<Located<DeviceFault>> for FileFault {
    ghost from_gives = { λ x y. y ≡ by_device x };

    fn from(value: Located<DeviceFault>) -> FileFault {
        FileFault::Device(value)
    }
}
