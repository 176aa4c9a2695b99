//! Inner: the eight pages of a cache, each lent from the table to the call that changes it.

ghost use Rattle.std.specs.Prelude.{◌≡◌, ℕ, ◌+◌, ◌/◌, ◌%◌, ◌<◌, ◌≤◌, length, set, if◌then◌else◌, Some, None};
ghost use Rattle.byte_lists.specs.Bytes.{part, laid};
ghost use Rattle.cache.specs.Pages.{page_at, page_of, kept, emptied};

use byte_lists::slices::{copy_part, lay_over};

/// A page: the sector that it keeps, if any, and that sector's bytes.
// The bytes stay beside none, since a page is lent from the table and filled in place.
#[derive(Clone, Copy)]
pub(crate) struct Page {
    sector: Option<u32>,
    bytes: [u8; 512],
}

impl Page {
    /// Keeps a sector.
    fn keep(&mut self, sector: u32, bytes: [u8; 512])
        ensures { self.new ≡ record { sector = Some sector; bytes = bytes } }
    {
        self.sector = Some(sector);
        self.bytes = bytes;
    }

    /// Lays a piece over the bytes.
    fn lay(&mut self, start: usize, piece: &[u8])
        requires { start + length piece.now ≤ 512 }
        ensures { self.new ≡ record { sector = self.old.sector; bytes = laid self.old.bytes start piece.now } }
    {
        lay_over(&mut self.bytes, start, piece);
    }

    /// Keeps nothing any more.
    fn empty(&mut self)
        ensures { self.new ≡ emptied self.old }
    {
        self.sector = None;
    }
}

/// The pages.
#[derive(Clone, Copy)]
pub(crate) struct Pages {
    table: [Page; 8],
    ghost eight: { length table ≡ 8 },
}

impl Pages {
    /// Eight empty pages.
    pub(crate) fn new() -> Pages
        ensures { (k : ℕ) → k < 8 → (page_at result.table k).sector ≡ None }
    {
        Pages {
            table: [Page {
                sector: None,
                bytes: [0; 512],
            }; 8],
        }
    }

    /// Whether a sector is kept.
    pub(crate) fn keeps(&self, sector: u32) -> bool
        ensures { result ≡ kept self.now.table sector }
    {
        self.table[sector as usize % 8].sector == Some(sector)
    }

    /// Fills the page of a sector, and touches no other page.
    pub(crate) fn fill(&mut self, sector: u32, bytes: [u8; 512])
        ensures { self.new.table ≡ set self.old.table (sector % 8) (record { sector = Some sector; bytes = bytes }) }
    {
        let page = &mut self.table[sector as usize % 8];
        page.keep(sector, bytes);
    }

    /// Empties the page of a sector, and touches no other page.
    pub(crate) fn forget(&mut self, sector: u32)
        ensures { self.new.table ≡ set self.old.table (sector % 8) (emptied (page_of self.old.table sector)) }
    {
        let old = &mut self.table[sector as usize % 8];
        old.empty();
    }

    /// Lays a piece over the page of its sector if that is kept, and touches no other page.
    pub(crate) fn update(&mut self, place: u32, piece: &[u8])
        requires { place % 512 + length piece.now ≤ 512 }
        ensures { self.new.table ≡ (if kept self.old.table (place / 512) then set self.old.table (place / 512 % 8) (record { sector = Some (place / 512); bytes = laid (page_of self.old.table (place / 512)).bytes (place % 512) piece.now }) else self.old.table) }
    {
        if self.keeps(place / 512) {
            let page = &mut self.table[place as usize / 512 % 8];
            page.lay(place as usize % 512, piece);
        }
    }

    /// Fills a piece from the page of the sector in which it lies.
    pub(crate) fn copy_out(&self, place: u32, piece: &mut [u8])
        requires { place % 512 + length piece.old ≤ 512 }
        ensures { piece.new ≡ part (page_of self.now.table (place / 512)).bytes (place % 512) (length piece.old) }
    {
        let page = &self.table[place as usize / 512 % 8];
        copy_part(&page.bytes, place as usize % 512, piece);
    }
}
