//! Finishing a draft.

ghost use Rattle.std.specs.Prelude.{◌+◌, ◌*◌, ◌≤◌, length};
ghost use Rattle.shelf.specs.Finishes.{Finishes};
ghost use Rattle.shelf.specs.Drafts.{FinishAfterAddsIsLawful};
ghost use Rattle.shelf.specs.Steps.{ClosesFile, EndsFile};

use crate::fault::ShelfFault;
use crate::refusals::{FinishRefused, Refused};
use crate::states::{Draft, Finished};
use building::closing::close;
use building::entries::Entry;
use device::device::{Device, WritableDevice};
use faults::file::{FileFault, Located, add_place};

/// Writes the tables and the header of the file at `start`, whose records end at `position`.
fn close_at<D: WritableDevice>(
    d: &mut D,
    start: u32,
    position: u32,
    entries: &[Entry],
) -> Result<(), Located<FileFault>>
    requires within { start + (position + 16 * length entries.now) ≤ 512 * (D.Device.meaning d.old).sectors }
    requires past { 2048 ≤ position }
    ensures closes { ClosesFile (D.Device.meaning d.old) start position entries.now result (D.Device.meaning d.new) }
{
    add_place(close(d, start, position, entries), 256, start as u64)
}

/// Refuses what cannot be finished, or writes the tables and the header.
fn end_file<D: WritableDevice>(
    d: &mut D,
    draft: &Draft,
    entries: &[Entry],
) -> Result<(), ShelfFault>
    ensures ends { EndsFile (D.Device.meaning d.old) draft.now entries.now result (D.Device.meaning d.new) }
{
    if d.size() != draft.live.sectors {
        return Err(ShelfFault::Size);
    }
    let n = draft.records as usize;
    if entries.len() < n {
        return Err(ShelfFault::Entries);
    }
    close_at(d, draft.live.file_start(), draft.position, &entries[..n])?;
    Ok(())
}

/// Makes known to a proof what a finish after adds makes. It does nothing.
fn know_lawful()
    ensures { FinishAfterAddsIsLawful }
{}

impl Draft {
    /// Writes the tables, from one entry for each record of the draft, and then the header.
    pub fn finish<D: WritableDevice>(
        self,
        d: &mut D,
        entries: &[Entry],
    ) -> Result<Finished, FinishRefused>
        ensures finishes { Finishes (D.Device.meaning d.old) self entries.now result (D.Device.meaning d.new) }
        ensures lawful { FinishAfterAddsIsLawful }
    {
        know_lawful();
        if let Err(fault) = end_file(d, &self, entries) {
            return Err(Refused { fault, draft: self });
        }
        Ok(Finished {
            live: self.live,
            made: self.position + 16 * self.records,
        })
    }
}
