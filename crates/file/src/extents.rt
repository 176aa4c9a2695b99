//! Extents of a device.

ghost use Rattle.std.specs.Prelude.{◌+◌, ◌≤◌};

/// A start and a length on a device, in bytes.
#[derive(Clone, Copy, PartialEq, Eq, Debug)]
pub struct Extent {
    pub start: u32,
    pub len: u32,
    ghost bounded: { start + len ≤ 4294966784 },
}
