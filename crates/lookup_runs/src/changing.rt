//! Devices that may change between the calls of a run.

ghost use Rattle.lookup_runs.specs.Runs.{Keeps};

use device::device::Device;
use file::extents::Extent;

/// A device that may change, but for a file that can be read.
pub trait Changing: Device {
    /// Changes the device, and leaves the file of the extent as it is, if it can be read.
    fn change(&mut self, extent: Extent)
        ensures keeps { Keeps extent (Self.Device.meaning self.old) (Self.Device.meaning self.new) };
}
