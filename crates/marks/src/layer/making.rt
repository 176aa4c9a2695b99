//! The makers of the layer, marking, and the way back to the device below.

ghost use Rattle.std.specs.Prelude.{◌≡◌, ◌<◌, []};
ghost use Rattle.marks.specs.Marks.{sectors_of, marked, Marking};
ghost use Rattle.marks.specs.Layers.{marks_of, below_of, meaning_over};

use super::Marked;
use crate::fault::MarkFault;
use crate::list::Marks;
use device::device::Device;

impl<D: Device> Marked<D> {
    /// A device over another, with no sector marked.
    pub fn new(below: D) -> Marked<D>
        ensures meaning { meaning_over D.Device.meaning result ≡ D.Device.meaning below }
        ensures below { below_of result ≡ below }
        ensures marks { marks_of result ≡ [] }
    {
        Marked {
            below,
            marks: Marks::new(),
        }
    }

    /// A device over another, with the marks that a layer had.
    pub fn with_marks(below: D, marks: Marks) -> Marked<D>
        ensures meaning { meaning_over D.Device.meaning result ≡ marked (sectors_of marks) (D.Device.meaning below) }
        ensures below { below_of result ≡ below }
        ensures marks { marks_of result ≡ sectors_of marks }
    {
        Marked { below, marks }
    }

    /// The device below and the marks.
    pub fn into_parts(self) -> (D, Marks)
        ensures meaning { meaning_over D.Device.meaning self ≡ marked (sectors_of result.1) (D.Device.meaning result.0) }
        ensures below { result.0 ≡ below_of self }
        ensures marks { sectors_of result.1 ≡ marks_of self }
    {
        let Marked { below, marks } = self;
        (below, marks)
    }

    /// Marks a sector: refuses 11, then 29 where sixteen others are marked, and changes nothing then.
    /// A sector that is marked already stays so.
    pub fn mark(&mut self, sector: u32) -> Result<(), MarkFault>
        ensures marking { Marking (marks_of self.old) (meaning_over D.Device.meaning self.old) sector result (marks_of self.new) (meaning_over D.Device.meaning self.new) }
        ensures below { below_of self.new ≡ below_of self.old }
    {
        if sector >= self.below.size() {
            return Err(MarkFault::Range);
        }
        self.mark_inside(sector)
    }

    /// Marks a sector of the device.
    fn mark_inside(&mut self, sector: u32) -> Result<(), MarkFault>
        requires inside { sector < (meaning_over D.Device.meaning self.old).sectors }
        ensures marking { Marking (marks_of self.old) (meaning_over D.Device.meaning self.old) sector result (marks_of self.new) (meaning_over D.Device.meaning self.new) }
        ensures below { below_of self.new ≡ below_of self.old }
    {
        if self.marks.has(sector) {
            return Ok(());
        }
        self.marks.add(sector)
    }
}
