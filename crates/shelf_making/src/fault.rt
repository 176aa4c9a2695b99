//! What refuses the making of a file on a shelf.

ghost use Rattle.std.specs.Prelude.{◌≡◌};
ghost use Rattle.shelf_making.specs.Reports.{make_report};
ghost use Rattle.shelf_making.specs.Refusals.{AfterPublish, GivesDraftBack, GivesFinishedBack};

use faults::report::Report;
use shelf::fault::ShelfFault;
use shelf::refusals::Refused;
use shelf::states::{Draft, Finished, Shelf};
use text::fault::TextFault;

/// The refusal of a file that was to be made on a shelf.
#[derive(Clone, Copy, PartialEq, Eq, Debug)]
pub enum ShelfMakeFault {
    /// 10: the text's refusal, whole.
    Text(TextFault),
    /// The shelf's refusal, whole.
    Shelf(ShelfFault),
}

/// A refused make, with the shelf that comes back, unless 21 ended it.
#[derive(Drop)]
pub struct MakeRefused {
    pub fault: ShelfMakeFault,
    pub shelf: Option<Shelf>,
}

/// A fault is told by its number, table and place.
impl From<ShelfMakeFault> for Report {
    ghost from_gives = { λ f r. r ≡ make_report f };

    fn from(fault: ShelfMakeFault) -> Report {
        match fault {
            ShelfMakeFault::Text(below) => Report::from(below),
            ShelfMakeFault::Shelf(below) => Report::from(below),
        }
    }
}

/// A refused add or finish ends the make: its draft is abandoned.
impl From<Refused<Draft>> for MakeRefused {
    ghost from_gives = { λ x y. GivesDraftBack x y };

    fn from(refused: Refused<Draft>) -> MakeRefused {
        MakeRefused {
            fault: ShelfMakeFault::Shelf(refused.fault),
            shelf: Some(refused.draft.abandon()),
        }
    }
}

/// So does a refused publish.
impl From<Refused<Option<Finished>>> for MakeRefused {
    ghost from_gives = { λ x y. GivesFinishedBack x y };

    fn from(refused: Refused<Option<Finished>>) -> MakeRefused {
        MakeRefused {
            fault: ShelfMakeFault::Shelf(refused.fault),
            shelf: abandoned(refused.draft),
        }
    }
}

/// The shelf of a draft that is abandoned, unless 21 ended it.
fn abandoned(draft: Option<Finished>) -> Option<Shelf>
    ensures { AfterPublish draft result }
{
    Some(draft?.abandon())
}
