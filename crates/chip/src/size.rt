ghost use Rattle.std.specs.Prelude.{◌≡◌, ◌+◌, ◌*◌, ◌^◌, ◌<◌};
ghost use Rattle.chip.specs.Slot.{wide, in_range, fits};

use crate::slot;
use std::ops::Range;

// How large a chip in memory is to be. By default it has no pages.
#[derive(Clone, Copy, PartialEq, Eq, Debug, Default)]
pub struct Size {
    pub blocks: u16,
    pub pages_per_block: u16,
    pub page_size: u16,
}

impl Size {
    // How many pages there are.
    pub(crate) fn pages(self) -> usize
        ensures { result ≡ self.blocks * self.pages_per_block }
    {
        usize::from(self.blocks) * usize::from(self.pages_per_block)
    }

    // How many bytes a slot takes.
    fn wide(self) -> usize
        ensures { result ≡ wide self.page_size }
    {
        slot::HEADER + usize::from(self.page_size)
    }

    // Where the slot of a page lies.
    pub(crate) fn slot(self, page: u16) -> Range<usize>
        ensures from { result.start ≡ page * wide self.page_size }
        ensures to { result.end ≡ result.start + wide self.page_size }
    {
        nth(page, self.wide())
    }

    // Where the slots of a block lie.
    pub(crate) fn block(self, block: u16) -> Range<usize>
        ensures from { result.start ≡ block * (self.pages_per_block * wide self.page_size) }
        ensures to { result.end ≡ result.start + self.pages_per_block * wide self.page_size }
    {
        nth(block, usize::from(self.pages_per_block) * self.wide())
    }

    // Whether a chip may have this size. The bounds stand as numbers, as the rules list them.
    fn in_range(self) -> bool
        ensures { result ≡ in_range self.blocks self.pages_per_block self.page_size }
    {
        (1..=64).contains(&self.blocks)
            && (2..=32).contains(&self.pages_per_block)
            && (1..=512).contains(&self.page_size)
    }

    // Whether a chip may have this size, and takes just so many bytes.
    #[tactic(auto, unfolding(crate::specs::Slot::fits))]
    pub(crate) fn fits(self, long: usize) -> bool
        ensures { result ≡ fits self.blocks self.pages_per_block self.page_size long }
    {
        self.in_range() && self.pages() * self.wide() == long
    }
}

// Where the part of that number lies, of parts of so many bytes each.
fn nth(number: u16, wide: usize) -> Range<usize>
    requires { wide < 2 ^ 40 }
    ensures from { result.start ≡ number * wide }
    ensures to { result.end ≡ result.start + wide }
{
    let from = usize::from(number) * wide;
    from..from + wide
}
