ghost use Rattle.std.specs.Prelude.{◌≡◌, [], length, if◌then◌else◌};
ghost use Rattle.chip.specs.Calls.{shape_of, kind_told, Programmed, fetched, fetched_into, erase_told, erased};
ghost use Rattle.chip.specs.Gaps.{good_gaps, GapLaw};
ghost use Rattle.chip.specs.Slot.{programmed_bytes, block_erased, Layout};
ghost use Rattle.chip.specs.Makes.{flawed_means, gaps_of, Counted, made_flawed};
ghost use Rattle.chip.specs.Shaping.{flawed_shaped};

use crate::chip::Chip;
use crate::flawed::Flawed;
use crate::gaps::Gaps;
use crate::plain::Plain;
use crate::size::Size;
use crate::words::{Kind, Refusal, Shape};

impl<'a> Flawed<'a> {
    // A chip over this memory, which stays as it is. A gap g lets g - 1 accepted programs pass and fails the next;
    // then the next gap counts.
    #[tactic(auto, using(crate::proofs::Wearing::gap_law))]
    pub fn new(memory: &'a mut [u8], size: Size, gaps: &[u16]) -> Flawed<'a>
        ensures means { flawed_means result ≡ made_flawed size.blocks size.pages_per_block size.page_size gaps.now memory.old }
        ensures gaps { gaps_of result ≡ (if good_gaps gaps.now then gaps.now else []) }
        ensures bytes { result.plain.memory.now ≡ memory.old }
        ensures layout { Layout }
        ensures law { GapLaw }
    {
        let (size, gaps) = Gaps::new(gaps).map_or(
            (Size::default(), Gaps::none()),
            |gaps| (size, gaps),
        );
        Flawed {
            plain: Plain::new(memory, size),
            gaps,
        }
    }
}

impl<'a> Chip for Flawed<'a> {
    ghost means = { flawed_means };

    ghost shaped = { flawed_shaped };

    fn shape(&mut self) -> Shape
        ensures value { result ≡ shape_of (flawed_means self.old) }
        ensures same { flawed_means self.new ≡ flawed_means self.old }
        ensures gaps { gaps_of self.new ≡ gaps_of self.old }
        ensures bytes { self.new.plain.memory.now ≡ self.old.plain.memory.now }
    {
        self.plain.told(self.gaps.left())
    }

    fn kind(&mut self, page: u16) -> Result<Kind, Refusal>
        ensures value { result ≡ kind_told (flawed_means self.old) page }
        ensures same { flawed_means self.new ≡ flawed_means self.old }
        ensures gaps { gaps_of self.new ≡ gaps_of self.old }
        ensures bytes { self.new.plain.memory.now ≡ self.old.plain.memory.now }
    {
        self.plain.look(page)
    }

    // The one call that a gap counts.
    fn program(&mut self, page: u16, label: u16, bytes: &[u8]) -> Result<bool, Refusal>
        ensures effect { Programmed (flawed_means self.old) page label bytes.now result (flawed_means self.new) }
        ensures counted { Counted (gaps_of self.old) result (gaps_of self.new) }
        ensures bytes { self.new.plain.memory.now ≡ programmed_bytes self.old.plain.size.page_size page label bytes.now result self.old.plain.memory.now }
    {
        let fails = self.gaps.strike();
        if fails {
            self.plain.spoil(page, bytes.len())?;
        } else {
            self.plain.put(page, label, bytes)?;
        }
        self.gaps.wear();
        Ok(!fails)
    }

    fn fetch(&mut self, page: u16, buffer: &mut [u8]) -> Result<(u16, usize), Refusal>
        ensures value { result ≡ fetched (flawed_means self.old) page (length buffer.old) }
        ensures buffer { buffer.new ≡ fetched_into (flawed_means self.old) page result buffer.old }
        ensures same { flawed_means self.new ≡ flawed_means self.old }
        ensures gaps { gaps_of self.new ≡ gaps_of self.old }
        ensures bytes { self.new.plain.memory.now ≡ self.old.plain.memory.now }
    {
        self.plain.read(page, buffer)
    }

    #[tactic(auto, using(crate::proofs::Touching::wiped_means))]
    fn erase(&mut self, block: u16) -> Result<(), Refusal>
        ensures value { result ≡ erase_told (flawed_means self.old) block }
        ensures after { flawed_means self.new ≡ erased (flawed_means self.old) block }
        ensures gaps { gaps_of self.new ≡ gaps_of self.old }
        ensures bytes { self.new.plain.memory.now ≡ block_erased self.old.plain.size.page_size self.old.plain.size.pages_per_block block result self.old.plain.memory.now }
    {
        self.plain.wipe(block)
    }
}
