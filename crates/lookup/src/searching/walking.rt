//! The walk over the slots of the cursor.

ghost use Rattle.std.specs.Prelude.{◌≡◌};
ghost use Rattle.lookup.specs.Nexts.{Walked};
ghost use Rattle.lookup.specs.Searches.{Kept};

use super::Search;
use crate::cursors::{Probe, Step};
use cdb::tables::slot_away;
use device::device::Device;
use faults::file::FileFault;

impl<'d, 'k, D: Device> Search<'d, 'k, D> {
    /// Probes the slots that are left, up to a record of the key, an empty slot or the last slot.
    pub(crate) fn walk(&mut self) -> Result<Step, FileFault>
        ensures walk { Walked (D.Device.meaning self.old.device.now) self.old.cursor self.old.key.now result }
        ensures kept { Kept self.old self.new }
    {
        let cursor = self.cursor;
        for at in cursor.probed..cursor.slots {
            let slot = slot_away(cursor.slots, cursor.hash, at);
            match self.probe_slot(slot)? {
                Probe::Empty => return Ok(Step {
                    found: None,
                    probed: cursor.slots,
                }),
                Probe::Other => {}
                Probe::Match(found) => return Ok(Step {
                    found: Some(found),
                    probed: at + 1,
                }),
            }
        }
        Ok(Step {
            found: None,
            probed: cursor.slots.max(cursor.probed),
        })
    }
}
