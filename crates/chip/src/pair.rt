ghost use Rattle.std.specs.Prelude.{◌≡◌, length};
ghost use Rattle.chip.specs.Calls.{shape_of, kind_told, Programmed, fetched, fetched_into, erase_told, erased};
ghost use Rattle.chip.specs.Fronts.{front_of, Splits, PageIn, BlockIn};
ghost use Rattle.chip.specs.Pairs.{both_shapes, joined, joined_shaped, side_of, block_side, ProgramsOne, ErasesOne};

use crate::chip::Chip;
use crate::words::{Kind, Refusal, Shape};

// Two chips as one: the first one's blocks come first. Every call but `shape` goes on to just one of the two.
// Whether the two fit together is asked of them each time, so that a pair trusts nothing but its chips.
#[derive(Drop)]
pub struct Pair<A: Chip, B: Chip> {
    first: A,
    second: B,
}

// Which of the two chips a page or a block lies in, and its number there.
#[derive(Clone, Copy)]
enum Half {
    First(u16),
    Second(u16),
}

impl Half {
    // Where a number lies, if the first chip has so many.
    fn of(number: u16, first: u16) -> Half
        ensures { Splits number first result }
    {
        if number < first {
            Half::First(number)
        } else {
            Half::Second(number - first)
        }
    }
}

impl<A: Chip, B: Chip> Pair<A, B> {
    // The calls of a chip take it by `&mut`, so what only asks a chip says that both stay: the clauses `first` and
    // `second`, here and below. Each is one equation, and so is what a pair means, `joined`: a name for them would take
    // both chips as arguments, and say no more.

    // Both chips, as they are. Two that do not fit together make a chip without pages.
    pub fn new(first: A, second: B) -> Pair<A, B>
        ensures first { result.first ≡ first }
        ensures second { result.second ≡ second }
        ensures means { joined (A.Chip.means result.first) (B.Chip.means result.second) ≡ joined (A.Chip.means first) (B.Chip.means second) }
    {
        Pair { first, second }
    }

    // The shape of the first chip, and that of the pair, if the two fit together.
    fn shapes(&mut self) -> (Shape, Option<Shape>)
        ensures front { result.0 ≡ shape_of (A.Chip.means self.old.first) }
        ensures whole { result.1 ≡ both_shapes (shape_of (A.Chip.means self.old.first)) (shape_of (B.Chip.means self.old.second)) }
        ensures first { A.Chip.means self.new.first ≡ A.Chip.means self.old.first }
        ensures second { B.Chip.means self.new.second ≡ B.Chip.means self.old.second }
    {
        let front = self.first.shape();
        (front, front.join(self.second.shape()))
    }

    // The shape of the first chip, if the two fit together.
    fn front(&mut self) -> Result<Shape, Refusal>
        ensures value { result ≡ front_of (A.Chip.means self.old.first) (B.Chip.means self.old.second) }
        ensures first { A.Chip.means self.new.first ≡ A.Chip.means self.old.first }
        ensures second { B.Chip.means self.new.second ≡ B.Chip.means self.old.second }
    {
        let (front, whole) = self.shapes();
        whole.map(|_| front).ok_or(Refusal::NotThere)
    }

    // Which of the two a page lies in.
    fn page(&mut self, page: u16) -> Result<Half, Refusal>
        ensures value { PageIn (A.Chip.means self.old.first) (B.Chip.means self.old.second) page result }
        ensures first { A.Chip.means self.new.first ≡ A.Chip.means self.old.first }
        ensures second { B.Chip.means self.new.second ≡ B.Chip.means self.old.second }
    {
        let front = self.front()?;
        Ok(Half::of(page, front.blocks * front.pages_per_block))
    }

    // Which of the two a block lies in. Not one function with `page`: what they count by differs, and so do the clauses.
    fn block(&mut self, block: u16) -> Result<Half, Refusal>
        ensures value { BlockIn (A.Chip.means self.old.first) (B.Chip.means self.old.second) block result }
        ensures first { A.Chip.means self.new.first ≡ A.Chip.means self.old.first }
        ensures second { B.Chip.means self.new.second ≡ B.Chip.means self.old.second }
    {
        let front = self.front()?;
        Ok(Half::of(block, front.blocks))
    }
}

impl<A: Chip, B: Chip> Chip for Pair<A, B> {
    ghost means = { λ p. joined (A.Chip.means p.first) (B.Chip.means p.second) };

    ghost shaped = { λ p. joined_shaped (A.Chip.means p.first) (B.Chip.means p.second) (A.Chip.shaped p.first) (B.Chip.shaped p.second) };

    fn shape(&mut self) -> Shape
        ensures value { result ≡ shape_of (joined (A.Chip.means self.old.first) (B.Chip.means self.old.second)) }
        ensures same { joined (A.Chip.means self.new.first) (B.Chip.means self.new.second) ≡ joined (A.Chip.means self.old.first) (B.Chip.means self.old.second) }
        ensures first { A.Chip.means self.new.first ≡ A.Chip.means self.old.first }
        ensures second { B.Chip.means self.new.second ≡ B.Chip.means self.old.second }
    {
        self.shapes().1.unwrap_or_default()
    }

    // Each call matches for itself: a function that lends the half as a `dyn Chip` would have to say of every call that
    // the other chip stays.
    fn kind(&mut self, page: u16) -> Result<Kind, Refusal>
        ensures value { result ≡ kind_told (joined (A.Chip.means self.old.first) (B.Chip.means self.old.second)) page }
        ensures same { joined (A.Chip.means self.new.first) (B.Chip.means self.new.second) ≡ joined (A.Chip.means self.old.first) (B.Chip.means self.old.second) }
        ensures first { A.Chip.means self.new.first ≡ A.Chip.means self.old.first }
        ensures second { B.Chip.means self.new.second ≡ B.Chip.means self.old.second }
    {
        match self.page(page)? {
            Half::First(page) => self.first.kind(page),
            Half::Second(page) => self.second.kind(page),
        }
    }

    fn program(&mut self, page: u16, label: u16, bytes: &[u8]) -> Result<bool, Refusal>
        ensures effect { let before = joined (A.Chip.means self.old.first) (B.Chip.means self.old.second) in Programmed before page label bytes.now result (joined (A.Chip.means self.new.first) (B.Chip.means self.new.second)) }
        ensures one { let a = A.Chip.means self.old.first in let b = B.Chip.means self.old.second in ProgramsOne (side_of a b page) a b page label bytes.now result (A.Chip.means self.new.first) (B.Chip.means self.new.second) }
    {
        match self.page(page)? {
            Half::First(page) => self.first.program(page, label, bytes),
            Half::Second(page) => self.second.program(page, label, bytes),
        }
    }

    fn fetch(&mut self, page: u16, buffer: &mut [u8]) -> Result<(u16, usize), Refusal>
        ensures value { result ≡ fetched (joined (A.Chip.means self.old.first) (B.Chip.means self.old.second)) page (length buffer.old) }
        ensures buffer { buffer.new ≡ fetched_into (joined (A.Chip.means self.old.first) (B.Chip.means self.old.second)) page result buffer.old }
        ensures same { joined (A.Chip.means self.new.first) (B.Chip.means self.new.second) ≡ joined (A.Chip.means self.old.first) (B.Chip.means self.old.second) }
        ensures first { A.Chip.means self.new.first ≡ A.Chip.means self.old.first }
        ensures second { B.Chip.means self.new.second ≡ B.Chip.means self.old.second }
    {
        match self.page(page)? {
            Half::First(page) => self.first.fetch(page, buffer),
            Half::Second(page) => self.second.fetch(page, buffer),
        }
    }

    fn erase(&mut self, block: u16) -> Result<(), Refusal>
        ensures value { result ≡ erase_told (joined (A.Chip.means self.old.first) (B.Chip.means self.old.second)) block }
        ensures after { let before = joined (A.Chip.means self.old.first) (B.Chip.means self.old.second) in joined (A.Chip.means self.new.first) (B.Chip.means self.new.second) ≡ erased before block }
        ensures one { let a = A.Chip.means self.old.first in let b = B.Chip.means self.old.second in ErasesOne (block_side a b block) a b block result (A.Chip.means self.new.first) (B.Chip.means self.new.second) }
    {
        match self.block(block)? {
            Half::First(block) => self.first.erase(block),
            Half::Second(block) => self.second.erase(block),
        }
    }
}
