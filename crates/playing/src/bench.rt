//! A device, and what can become of it between the calls of a history.

ghost use Rattle.std.specs.Prelude.{Result};
ghost use Rattle.faults.specs.declared.report.Report.{Report};
ghost use Rattle.device.specs.Meanings.{Meaning};
ghost use Rattle.shelf.specs.Drafts.{Between};
ghost use Rattle.history.specs.Histories.{Remounts};

use device::device::WritableDevice;
use faults::report::Report;

/// A device after something became of it, or could not.
#[derive(Drop)]
pub struct Turned<D> {
    pub device: D,
    pub answer: Result<(), Report>,
}

/// A device to which something can become between two calls.
// It takes the device by value, as the layers of a device are taken apart and put together again.
pub trait Bench: WritableDevice {
    /// What can become of it.
    type Turn;

    /// What a turn does to its meaning inside a mount, and what is answered.
    ghost turns: { Self.Turn → Meaning → Result (Unit {0}) Report → Meaning → Type 0 };

    /// What a turn does to its meaning between two mounts, and what is answered.
    ghost starts: { Self.Turn → Meaning → Result (Unit {0}) Report → Meaning → Type 0 };

    /// Inside a mount no byte changes, and power does not come back.
    ghost inside: { (t : Self.Turn) (m n : Meaning) (r : Result (Unit {0}) Report) → turns t m r n → Between m n };

    /// Between two mounts no byte changes.
    ghost across: { (t : Self.Turn) (m n : Meaning) (r : Result (Unit {0}) Report) → starts t m r n → Remounts m n };

    /// Something becomes of it inside a mount.
    fn turn(self, turn: &Self::Turn) -> Turned<Self>
        ensures { turns turn.now (Self.Device.meaning self) result.answer (Self.Device.meaning result.device) };

    /// A mount ends, something becomes of it, and the next mount begins.
    fn remount(self, turn: &Self::Turn) -> Turned<Self>
        ensures { starts turn.now (Self.Device.meaning self) result.answer (Self.Device.meaning result.device) };
}
