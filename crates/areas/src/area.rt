//! The areas.

ghost use Rattle.std.specs.Prelude.{◌≡◌};
ghost use Rattle.areas.specs.Geometry.{number as number_of, Numbered, other as other_than};

/// One of the two areas, by its number.
#[derive(Clone, Copy, PartialEq, Eq, Debug)]
pub enum Area {
    /// Area 0, behind the root.
    Zero,
    /// Area 1, behind area 0.
    One,
}

/// A number that no area has.
#[derive(Clone, Copy, PartialEq, Eq, Debug)]
pub struct UnknownArea(pub u32);

impl From<Area> for u32 {
    ghost from_gives = { λ area number. number ≡ number_of area };

    fn from(area: Area) -> u32 {
        match area {
            Area::Zero => 0,
            Area::One => 1,
        }
    }
}

impl TryFrom<u32> for Area {
    type Error = UnknownArea;

    ghost try_from_gives = { Numbered };

    fn try_from(number: u32) -> Result<Area, UnknownArea> {
        match number {
            0 => Ok(Area::Zero),
            1 => Ok(Area::One),
            _ => Err(UnknownArea(number)),
        }
    }
}

impl Area {
    /// The other area.
    pub fn other(self) -> Area
        ensures { result ≡ other_than self }
    {
        match self {
            Area::Zero => Area::One,
            Area::One => Area::Zero,
        }
    }
}
