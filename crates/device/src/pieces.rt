//! The pieces of a run of bytes, each inside one sector.

ghost use Rattle.std.specs.Prelude.{◌≡◌, ℕ, ◌+◌, ◌-◌, ◌*◌, ◌/◌, ◌%◌, ◌^◌, ◌<◌, ◌≤◌};
ghost use Rattle.std.specs.Iterator.{at_most};

/// A piece that lies in one sector: its place on the device, and which bytes of the run it has.
#[derive(Clone, Copy)]
pub struct Piece {
    pub place: u32,
    pub from: usize,
    pub to: usize,
    ghost some: { from < to },
    ghost inside: { place % 512 + (to - from) ≤ 512 },
}

// That a run lies on the device is a clause of who reads or writes it: pieces know no device, and a struct that did would hold it.

/// The pieces of a run of bytes, in their order: where the run starts on the device, its length, and the bytes that earlier pieces had.
#[derive(Drop)]
pub struct Pieces {
    pub start: u32,
    pub done: usize,
    pub len: usize,
    ghost within: { done ≤ len },
    ghost fits: { start + len < 2 ^ 32 },
}

impl Pieces {
    /// The pieces of the run of `len` bytes that starts at a place.
    pub fn new(start: u32, len: usize) -> Pieces
        requires { start + len < 2 ^ 32 }
        ensures start { result.start ≡ start }
        ensures done { result.done ≡ 0 }
        ensures len { result.len ≡ len }
    {
        Pieces {
            start,
            done: 0,
            len,
        }
    }
}

impl Iterator for Pieces {
    ghost use Rattle.device.specs.Pieces.{GivesPiece};

    type Item = Piece;

    ghost next_gives = { GivesPiece };

    ghost remaining = { λ s. at_most (s.len - s.done) };

    fn next(&mut self) -> Option<Piece> {
        if self.done == self.len {
            return None;
        }
        let from = self.done;
        let place = self.start + from as u32;
        let sector_left = (512 - place % 512) as usize;
        self.done += sector_left.min(self.len - from);
        Some(Piece {
            place,
            from,
            to: self.done,
        })
    }
}
