ghost use Rattle.std.specs.Prelude.{◌≡◌, ◌*◌, None, replicate};
ghost use Rattle.pages.specs.Tied.{maps_of};

use crate::geometry::Geometry;

// The most page numbers that a store offers, and the most blocks that a chip has.
pub const MOST_NUMBERS: usize = 1920;

pub const MOST_BLOCKS: usize = 64;

// What the store keeps of its chip: the chip page of each page number, the dead pages of each block, the
// free pages of the chip, and the page where the next search for a free page starts.
// Both tables are as long as the largest chip needs, since there is no heap. The chip is no field: a store that is
// shut has a chip and no tables. So every call is lent the chip, and what ties the two is a premise of its contract.
// Its counts saturate, so that no call has a premise on them; that they never do is proved with what ties the two.
#[derive(Drop)]
pub struct Tables {
    pub map: [Option<u16>; MOST_NUMBERS],
    pub dead: [u8; MOST_BLOCKS],
    pub free: u16,
    pub start: u16,
    pub geometry: Geometry,
}

impl Tables {
    // The tables of a chip whose pages are all free.
    pub fn fresh(geometry: Geometry) -> Tables
        ensures map { result.map ≡ replicate 1920 None }
        ensures dead { result.dead ≡ replicate 64 0 }
        ensures free { result.free ≡ geometry.blocks * geometry.pages_per_block }
        ensures start { result.start ≡ 0 }
        ensures geometry { result.geometry ≡ geometry }
    {
        Tables {
            map: [None; MOST_NUMBERS],
            dead: [0; MOST_BLOCKS],
            free: geometry.pages(),
            start: 0,
            geometry,
        }
    }

    // The chip page of a page number, if something is stored under it; nothing stands under a number past the last.
    pub fn page_of(&self, number: u16) -> Option<u16>
        ensures { result ≡ maps_of self.now number }
    {
        *self.map.get(usize::from(number))?
    }
}
