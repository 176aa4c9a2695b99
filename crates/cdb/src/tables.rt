//! Where a search looks in a table.

ghost use Rattle.std.specs.Prelude.{◌≡◌, ◌+◌, ◌/◌, ◌%◌, ◌<◌};
ghost use Rattle.cdb.specs.Tables.{slot_away};

/// The slot at a distance from the home of a hash, in a table of so many slots.
pub fn slot_away(slots: u32, hash: u32, distance: u32) -> u32
    requires { distance < slots }
    ensures slot { result ≡ slot_away slots hash distance }
    ensures within { result < slots }
{
    let home = hash / 256 % slots;
    let left = slots - home;
    // The sum of home and distance may not fit 32 bits.
    if distance < left {
        home + distance
    } else {
        distance - left
    }
}
