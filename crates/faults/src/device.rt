//! What a device refuses.

ghost use Rattle.std.specs.Prelude.{◌≡◌};
ghost use Rattle.faults.specs.Reports.{device_report};

use crate::report::Report;

/// A device's refusal.
#[derive(Clone, Copy, PartialEq, Eq, Debug)]
pub enum DeviceFault {
    /// 11: the piece or the sector is not on the device.
    Range,
    /// 21: no power.
    Power,
    /// 22: the sector is bad; its first byte.
    Bad(u32),
}

/// A device's fault is told by its number, and its place.
impl From<DeviceFault> for Report {
    ghost from_gives = { λ f r. r ≡ device_report f };

    fn from(fault: DeviceFault) -> Report {
        match fault {
            DeviceFault::Range => Report::bare(11),
            DeviceFault::Power => Report::bare(21),
            DeviceFault::Bad(place) => Report::placed(22, u64::from(place)),
        }
    }
}
