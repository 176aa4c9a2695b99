//! Inner: rule 3, the records.

ghost use Rattle.std.specs.Prelude.{◌≡◌, ℕ, ◌+◌, ◌-◌, ◌*◌, ◌/◌, ◌%◌, ◌^◌, ◌<◌, ◌≤◌, length, MatchResult};
ghost use Rattle.file.specs.ReadableFiles.{contents, SameFile};
ghost use Rattle.scanning.specs.Sweeps.{CountTo, EndsPast, Ahead, Steps};

use crate::records::Step;
use device::device::Device;
use faults::file::FileFault;
use file::readable_file::ReadableFile;

/// The number of records before `end`; refuses the first that ends past it.
pub fn count_records<D: Device>(file: &mut ReadableFile<'_, D>, end: u32) -> Result<u32, FileFault>
    requires { (2048 ≤ end) × (end ≤ length (contents file.old)) }
    ensures answer { MatchResult result (λ n. CountTo (contents file.old) end n) (λ x. EndsPast (contents file.old) end x) }
    ensures same { SameFile file.old file.new }
{
    let mut place = 2048;
    let mut count = 0;
    // How far to go is what each record says, so no range or iterator is plainer.
    while place < end {
        if end - place < 8 {
            return Err(FileFault::Record(place));
        }
        let words = file.words(place);
        let next = place as u64 + 8 + words.first as u64 + words.second as u64;
        if next > end as u64 {
            return Err(FileFault::Record(place));
        }
        place = next as u32;
        count += 1;
    }
    Ok(count)
}

/// The key length of the record at a place, and where it ends.
pub(crate) fn record_at<D: Device>(file: &mut ReadableFile<'_, D>, place: u32, end: u32) -> Step
    requires within { (place < end) × (end ≤ length (contents file.old)) }
    requires records { Ahead (contents file.old) place end }
    ensures found { Steps (contents file.old) place end result }
    ensures same { SameFile file.old file.new }
{
    let words = file.words(place);
    Step {
        key: words.first,
        next: place + 8 + words.first + words.second,
    }
}
