//! A publication, which power may cut.

use building::entries::Entry;
use checks::{check, check_eq};
use device::device::WritableDevice;
use faults::report::Report;
use shelf::fault::ShelfFault;
use shelf::states::{Finished, Shelf};
use std::test::Fail;

/// A key and its data.
pub(crate) type Record<'a> = (&'a [u8], &'a [u8]);

/// How far a publication came.
#[derive(Clone, Copy, PartialEq, Eq, Debug)]
pub(crate) enum End {
    /// Power went in an add or in the finish.
    InDraft,
    /// Power went in the publish.
    InPublish,
    /// It is done.
    Done,
}

/// Adds and finishes at most eight records.
fn write_draft<D: WritableDevice>(
    d: &mut D,
    shelf: Shelf,
    records: &[Record<'_>],
) -> Result<Finished, ShelfFault> {
    let mut entries = [Entry { hash: 0, place: 0 }; 8];
    let mut draft = shelf.begin();
    for (key, data) in records {
        draft = draft
            .add(d, &mut entries, key, data)
            .map_err(|refused| refused.fault)?;
    }
    draft.finish(d, &entries).map_err(|refused| refused.fault)
}

/// Publishes the records. Only a lack of power may refuse a call, and a publish that is refused so ends the draft.
pub(crate) fn publish_all<D: WritableDevice>(
    d: &mut D,
    shelf: Shelf,
    records: &[Record<'_>],
) -> Result<End, Fail> {
    let finished = match write_draft(d, shelf, records) {
        Ok(finished) => finished,
        Err(fault) => {
            check_eq(Report::from(fault), Report::bare(21))?;
            return Ok(End::InDraft);
        }
    };
    match finished.publish(d) {
        Ok(_) => Ok(End::Done),
        Err(refused) => {
            check_eq(Report::from(refused.fault), Report::bare(21))?;
            check(refused.draft.is_none())?;
            Ok(End::InPublish)
        }
    }
}
