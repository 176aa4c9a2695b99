//! Inner: rule 4 over all records, and what rule 8 needs.

ghost use Rattle.std.specs.Prelude.{◌≡◌, ℕ, ◌+◌, ◌-◌, ◌*◌, ◌/◌, ◌%◌, ◌^◌, ◌<◌, ◌≤◌, length, MatchResult};
ghost use Rattle.file.specs.ReadableFiles.{contents, SameFile};
ghost use Rattle.scanning.specs.Headers.{TablesInside};
ghost use Rattle.scanning.specs.Sweeps.{Ahead, Placed, Lost};

use crate::records::Placing;
use crate::searching::locate;
use crate::walk::record_at;
use device::device::Device;
use faults::file::FileFault;
use file::readable_file::ReadableFile;

/// Finds the distance of each record and counts the records of each table, or refuses the first record without a distance.
pub fn place_records<D: Device>(
    file: &mut ReadableFile<'_, D>,
    end: u32,
) -> Result<Placing, FileFault>
    requires tables { TablesInside (contents file.old) }
    requires within { (2048 ≤ end) × (end ≤ length (contents file.old)) }
    requires records { Ahead (contents file.old) 2048 end }
    ensures answer { MatchResult result (λ x. Placed (contents file.old) end x.probes x.counts x.low) (λ x. Lost (contents file.old) end x) }
    ensures same { SameFile file.old file.new }
{
    let mut counts = [0u32; 256];
    let mut probes: u64 = 0;
    let mut low = end;
    let mut place = 2048;
    // As in `count_records`, each record says where the next one stands.
    while place < end {
        let step = record_at(file, place, end);
        let found = locate(file, place, step.key, low)?;
        probes += found.distance as u64 + 1;
        counts[found.table as usize] += 1;
        low = found.low;
        place = step.next;
    }
    Ok(Placing {
        probes,
        low,
        counts,
    })
}
