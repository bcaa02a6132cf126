ghost use Rattle.std.specs.Prelude.{◌≡◌, length};
ghost use Rattle.chip.specs.Calls.{shape_of, kind_told, Programmed, fetched, fetched_into, erase_told, erased};
ghost use Rattle.chip.specs.Slot.{slot_of, failed_slot, programmed_bytes, block_erased, made, Layout};
ghost use Rattle.chip.specs.Makes.{means_of, plain_means, size_for, NeverFails, Held, Opened, Bounded, Put, Wiped};
ghost use Rattle.chip.specs.Shaping.{plain_shaped};

use crate::chip::Chip;
use crate::plain::Plain;
use crate::size::Size;
use crate::slot::{self, Slot};
use crate::words::{Kind, Refusal, Shape};
use std::ops::Range;

impl<'a> Plain<'a> {
    // A chip over this memory, which stays as it is: its pages are what the bytes mean. It has none if the size does
    // not fit the memory.
    #[tactic(auto, using(crate::proofs::Slots::layout))]
    pub fn new(memory: &'a mut [u8], size: Size) -> Plain<'a>
        ensures means { plain_means result ≡ made size.blocks size.pages_per_block size.page_size 0 memory.old }
        ensures size { result.size ≡ size_for size (length memory.old) }
        ensures bytes { result.memory.now ≡ memory.old }
        ensures layout { Layout }
    {
        let size = if size.fits(memory.len()) {
            size
        } else {
            Size::default()
        };
        Plain { memory, size }
    }

    // The slot of a page.
    #[tactic(auto, using(crate::proofs::Placing::no_pages, crate::proofs::Placing::least_pages))]
    fn slot(&self, page: u16) -> Result<Slot<'_>, Refusal>
        ensures { Held self.now page result }
    {
        if !self.size.fits(self.memory.len()) || usize::from(page) >= self.size.pages() {
            return Err(Refusal::NotThere);
        }
        let at = self.size.slot(page);
        Ok(Slot {
            bytes: &self.memory[at],
        })
    }

    // The shape, with so many failures left.
    pub(crate) fn told(&self, allowance: u16) -> Shape
        ensures { result ≡ shape_of (means_of self.now.size allowance self.now.memory.now) }
    {
        if !self.size.fits(self.memory.len()) {
            return Shape::default();
        }
        Shape {
            blocks: self.size.blocks,
            pages_per_block: self.size.pages_per_block,
            page_size: self.size.page_size,
            allowance,
        }
    }

    // `told`, `look` and `read` are what both makes of chip in memory answer. The calls of the trait take `&mut self`,
    // since some chips need it, and so each says what stays, in both makes: the meaning, the bytes and the gaps. These
    // three take `&self`, and need no such clauses.
    #[tactic(auto, using(crate::proofs::Placing::told_kind))]
    pub(crate) fn look(&self, page: u16) -> Result<Kind, Refusal>
        ensures { result ≡ kind_told (plain_means self.now) page }
    {
        Ok(self.slot(page)?.kind())
    }

    #[tactic(auto, using(crate::proofs::Placing::told_fetch, crate::proofs::Placing::told_into))]
    pub(crate) fn read(&self, page: u16, buffer: &mut [u8]) -> Result<(u16, usize), Refusal>
        ensures value { result ≡ fetched (plain_means self.now) page (length buffer.old) }
        ensures buffer { buffer.new ≡ fetched_into (plain_means self.now) page result buffer.old }
    {
        self.slot(page)?.fetch(buffer)
    }

    // Where the slot lies of a page that may be programmed with so many bytes.
    #[tactic(auto, using(crate::proofs::Placing::asks_not_free, crate::proofs::Placing::asks_too_long))]
    fn open(&self, page: u16, long: usize) -> Result<Range<usize>, Refusal>
        ensures { Opened self.now page long result }
    {
        let slot = self.slot(page)?;
        if !slot.is_free() {
            return Err(Refusal::WrongKind);
        }
        if long > usize::from(self.size.page_size) {
            return Err(Refusal::TooLong);
        }
        Ok(self.size.slot(page))
    }

    // Where the slots of a block lie.
    #[tactic(auto, using(crate::proofs::Placing::no_blocks, crate::proofs::Placing::least_blocks))]
    fn block(&self, block: u16) -> Result<Range<usize>, Refusal>
        ensures { Bounded self.now block result }
    {
        if !self.size.fits(self.memory.len()) || block >= self.size.blocks {
            return Err(Refusal::NotThere);
        }
        Ok(self.size.block(block))
    }

    // `put`, `spoil` and `wipe` are what both makes do to the memory; they take `&mut self`, for they write it.
    // A program that is good. It and `spoil` differ in what they write, which as a closure would cost more lines of
    // contract than it saves.
    pub(crate) fn put(&mut self, page: u16, label: u16, bytes: &[u8]) -> Result<(), Refusal>
        ensures { Put self.old page (length bytes.now) (slot_of self.old.size.page_size label bytes.now) result self.new }
    {
        let at = self.open(page, bytes.len())?;
        slot::write(&mut self.memory[at], label, bytes);
        Ok(())
    }

    // A program of so many bytes that fails: it leaves zeros.
    pub(crate) fn spoil(&mut self, page: u16, long: usize) -> Result<(), Refusal>
        ensures { Put self.old page long (failed_slot self.old.size.page_size) result self.new }
    {
        let at = self.open(page, long)?;
        self.memory[at].fill(0);
        Ok(())
    }

    // Erases every slot of a block.
    pub(crate) fn wipe(&mut self, block: u16) -> Result<(), Refusal>
        ensures { Wiped self.old block result self.new }
    {
        let at = self.block(block)?;
        self.memory[at].fill(slot::BLANK);
        Ok(())
    }
}

impl<'a> Chip for Plain<'a> {
    ghost means = { plain_means };

    ghost shaped = { plain_shaped };

    fn shape(&mut self) -> Shape
        ensures value { result ≡ shape_of (plain_means self.old) }
        ensures same { plain_means self.new ≡ plain_means self.old }
        ensures bytes { self.new.memory.now ≡ self.old.memory.now }
    {
        self.told(0)
    }

    fn kind(&mut self, page: u16) -> Result<Kind, Refusal>
        ensures value { result ≡ kind_told (plain_means self.old) page }
        ensures same { plain_means self.new ≡ plain_means self.old }
        ensures bytes { self.new.memory.now ≡ self.old.memory.now }
    {
        self.look(page)
    }

    #[tactic(auto, using(crate::proofs::Flawing::programmed_good))]
    fn program(&mut self, page: u16, label: u16, bytes: &[u8]) -> Result<bool, Refusal>
        ensures effect { Programmed (plain_means self.old) page label bytes.now result (plain_means self.new) }
        ensures good { NeverFails result }
        ensures bytes { self.new.memory.now ≡ programmed_bytes self.old.size.page_size page label bytes.now result self.old.memory.now }
    {
        self.put(page, label, bytes)?;
        Ok(true)
    }

    fn fetch(&mut self, page: u16, buffer: &mut [u8]) -> Result<(u16, usize), Refusal>
        ensures value { result ≡ fetched (plain_means self.old) page (length buffer.old) }
        ensures buffer { buffer.new ≡ fetched_into (plain_means self.old) page result buffer.old }
        ensures same { plain_means self.new ≡ plain_means self.old }
        ensures bytes { self.new.memory.now ≡ self.old.memory.now }
    {
        self.read(page, buffer)
    }

    #[tactic(auto, using(crate::proofs::Touching::wiped_means))]
    fn erase(&mut self, block: u16) -> Result<(), Refusal>
        ensures value { result ≡ erase_told (plain_means self.old) block }
        ensures after { plain_means self.new ≡ erased (plain_means self.old) block }
        ensures bytes { self.new.memory.now ≡ block_erased self.old.size.page_size self.old.size.pages_per_block block result self.old.memory.now }
    {
        self.wipe(block)
    }
}
