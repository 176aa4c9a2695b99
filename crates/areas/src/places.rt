//! Inner: where the areas lie. The callers prove that a device has so many sectors.

ghost use Rattle.std.specs.Prelude.{◌≡◌, ℕ, ◌+◌, ◌*◌, ◌<◌, ◌≤◌};
ghost use Rattle.areas.specs.Geometry.{half, area_start, area_size};

use crate::area::Area;

// The number of sectors stays a number: a type that says that it is one would be taken apart at each call of a device.

/// How many sectors an area has.
fn half_of(sectors: u32) -> u32
    ensures { result ≡ half sectors }
{
    sectors.saturating_sub(1) / 2
}

/// How many bytes an area has: both have as many.
pub fn area_size(sectors: u32) -> u32
    requires { sectors ≤ 8388607 }
    ensures { (area : Area) → result ≡ area_size sectors area }
{
    512 * half_of(sectors)
}

/// Where an area starts.
pub fn area_start(sectors: u32, area: Area) -> u32
    requires { sectors ≤ 8388607 }
    ensures is { result ≡ area_start sectors area }
    ensures on { 0 < area_size sectors area → result + area_size sectors area ≤ 512 * sectors }
{
    match area {
        Area::Zero => 512,
        Area::One => 512 * (1 + half_of(sectors)),
    }
}
