//! Inner: what the layer does with its marks.

ghost use Rattle.std.specs.Prelude.{◌≡◌, [], MatchResult};
ghost use Rattle.marks.specs.Marks.{sectors_of, member, Adds, AddsNone};

use super::Marks;
use crate::fault::MarkFault;

impl Marks {
    /// No marks.
    pub(crate) fn new() -> Marks
        ensures { sectors_of result ≡ [] }
    {
        Marks {
            sectors: [0; 16],
            count: 0,
        }
    }

    /// Whether a sector is marked.
    pub(crate) fn has(&self, sector: u32) -> bool
        ensures { result ≡ member sector (sectors_of self.now) }
    {
        self.sectors[..self.count.min(16)].contains(&sector)
    }

    /// Marks one sector more: refuses 29 where sixteen are marked.
    pub(crate) fn add(&mut self, sector: u32) -> Result<(), MarkFault>
        ensures { MatchResult result (λ _. Adds (sectors_of self.old) sector (sectors_of self.new)) (AddsNone (sectors_of self.old) (sectors_of self.new)) }
    {
        if self.count >= 16 {
            return Err(MarkFault::Full);
        }
        self.sectors[self.count] = sector;
        self.count += 1;
        Ok(())
    }
}
