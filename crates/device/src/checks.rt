//! Inner: the test of a piece's range that every device makes.

ghost use Rattle.std.specs.Prelude.{◌≡◌, ℕ, ◌+◌, ◌-◌, ◌*◌, ◌/◌, ◌%◌, ◌^◌, ◌<◌, ◌≤◌};
ghost use Rattle.device.specs.Meanings.{within};

/// Whether a piece of `n` bytes at `place` lies inside one of the first sectors.
pub fn is_within(sectors: u32, place: u32, n: usize) -> bool
    ensures { result ≡ within sectors place n }
{
    if n == 0 || n > 512 {
        return false;
    }
    place as usize % 512 + n <= 512 && place as usize + n <= 512 * sectors as usize
}
