//! Publishing a finished draft.

ghost use Rattle.std.specs.Prelude.{◌≡◌};
ghost use Rattle.shelf.specs.Publishes.{Publishes};
ghost use Rattle.shelf.specs.Drafts.{PublishAfterAddsBreaksNoRule};
ghost use Rattle.shelf.specs.Steps.{AuditsDraft, WritesNextRoot, Switches};

use crate::fault::ShelfFault;
use crate::live::LiveFile;
use crate::refusals::{PublishRefused, Refused};
use crate::states::{Finished, Shelf};
use areas::roots::write_root;
use auditing::auditing::audit;
use auditing::audits::Counts;
use device::device::{Device, WritableDevice};
use faults::file::{FileFault, Located, add_place};

/// Audits the draft's file, on a device of its size.
fn audit_draft<D: Device>(d: &mut D, draft: &Finished) -> Result<Counts, Located<FileFault>>
    requires size { (D.Device.meaning d.old).sectors ≡ draft.now.live.sectors }
    ensures audits { AuditsDraft (D.Device.meaning d.old) draft.now result }
    ensures same { D.Device.meaning d.new ≡ D.Device.meaning d.old }
{
    let extent = draft.file();
    add_place(audit(d, extent), 256, extent.start as u64)
}

/// Writes the root that names the draft's file.
fn write_next_root<D: WritableDevice>(d: &mut D, draft: &Finished) -> Result<(), Located<FileFault>>
    ensures writes { WritesNextRoot (D.Device.meaning d.old) draft.now result (D.Device.meaning d.new) }
{
    add_place(write_root(d, draft.next_root()), 256, 0)
}

/// Audits the draft's file, then writes the root that names it.
fn switch<D: WritableDevice>(d: &mut D, draft: &Finished) -> Result<(), ShelfFault>
    ensures switches { Switches (D.Device.meaning d.old) draft.now result (D.Device.meaning d.new) }
{
    if d.size() != draft.live.sectors {
        return Err(ShelfFault::Size);
    }
    audit_draft(d, draft)?;
    write_next_root(d, draft)?;
    Ok(())
}

/// Makes known to a proof what can refuse a draft that was finished after adds. It does nothing.
fn know_rules()
    ensures { PublishAfterAddsBreaksNoRule }
{}

impl Finished {
    /// Audits the draft's file, then makes it the live one by one write of the root.
    pub fn publish<D: WritableDevice>(self, d: &mut D) -> Result<Shelf, PublishRefused>
        ensures publishes { Publishes (D.Device.meaning d.old) self result (D.Device.meaning d.new) }
        ensures rules { PublishAfterAddsBreaksNoRule }
    {
        know_rules();
        if let Err(fault) = switch(d, &self) {
            let draft = if fault.ends_draft() { None } else { Some(self) };
            return Err(Refused { fault, draft });
        }
        Ok(Shelf {
            live: LiveFile {
                sectors: self.live.sectors,
                root: self.next_root(),
            },
        })
    }
}
