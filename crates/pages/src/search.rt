ghost use Rattle.std.specs.Prelude.{◌≡◌, ◌*◌, ◌/◌, not, ◌&&◌};
ghost use Rattle.chip.specs.Meaning.{page_at};
ghost use Rattle.chip.specs.Calls.{is_free};
ghost use Rattle.history.specs.Work.{next_page};
ghost use Rattle.pages.specs.Search.{total as pages_of, over, Sized, Found};

use crate::geometry::Geometry;
use crate::tables::Tables;
use chip::{Chip, Kind};

impl Geometry {
    // How many pages there are.
    pub fn pages(self) -> u16
        ensures { result ≡ self.blocks * self.pages_per_block }
    {
        self.blocks * self.pages_per_block
    }

    // The block of a page.
    pub fn block_of(self, page: u16) -> u16
        ensures { result ≡ page / self.pages_per_block }
    {
        page / self.pages_per_block
    }

    // The page after another, going up and round.
    pub fn after(self, page: u16) -> u16
        ensures { result ≡ next_page (pages_of self) page }
    {
        let pages = self.pages();
        if page < pages && page + 1 < pages {
            page + 1
        } else {
            0
        }
    }
}

impl Tables {
    // Whether a page is free and not passed over.
    fn may_take<C: Chip>(&self, chip: &mut C, page: u16, skip: Option<u16>) -> bool
        ensures value { result ≡ (not (over self.now.geometry.pages_per_block skip page) && is_free (page_at (C.Chip.means chip.old) page)) }
        ensures same { C.Chip.means chip.new ≡ C.Chip.means chip.old }
    {
        skip != Some(self.geometry.block_of(page)) && chip.kind(page) == Ok(Kind::Free)
    }

    // The first free page going up and round from where the search starts; the pages of one block may be
    // passed over.
    pub fn place<C: Chip>(&self, chip: &mut C, skip: Option<u16>) -> Option<u16>
        ensures found { Sized (C.Chip.means chip.old).pages self.now → Found (over self.now.geometry.pages_per_block skip) (C.Chip.means chip.old).pages self.now.start result }
        ensures same { C.Chip.means chip.new ≡ C.Chip.means chip.old }
    {
        // The range counts the turns and not the pages, since the search goes round from where it starts.
        let mut page = self.start;
        for _ in 0..self.geometry.pages() {
            if self.may_take(chip, page, skip) {
                return Some(page);
            }
            page = self.geometry.after(page);
        }
        None
    }
}
