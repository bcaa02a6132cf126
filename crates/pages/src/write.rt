ghost use Rattle.std.specs.Prelude.{◌≡◌, length};
ghost use Rattle.pages.specs.Tied.{maps_of, buried, with_dead, spoilt, superseded, settled, Countable, Replaceable};
ghost use Rattle.pages.specs.Write.{CanWrite, Writes};

use crate::tables::Tables;
use chip::Chip;
use ledger::Refusal;

impl Tables {
    // One page more of a block is dead.
    fn bury(&mut self, page: u16)
        ensures { Countable self.old page → self.new ≡ with_dead self.old (buried self.old page) }
    {
        // By index, here, in `settle` and in `wipe`: of `get_mut` a proof knows no element after the write.
        let block = usize::from(self.geometry.block_of(page));
        if block < self.dead.len() {
            self.dead[block] = self.dead[block].saturating_add(1);
        }
    }

    // A program has failed: its page is neither free nor live.
    fn spoil(&mut self, page: u16)
        ensures { Countable self.old page → self.new ≡ spoilt self.old page }
    {
        self.bury(page);
        self.free = self.free.saturating_sub(1);
        self.start = self.geometry.after(page);
    }

    // The page that the map names for a label, if any, is dead.
    fn supersede(&mut self, label: u16)
        ensures { Replaceable self.old label → self.new ≡ with_dead self.old (superseded self.old (maps_of self.old label)) }
    {
        if let Some(old) = self.page_of(label) {
            self.bury(old);
        }
    }

    // A program was good: the map names its page for the label, and the page it named before is dead.
    fn settle(&mut self, label: u16, page: u16)
        ensures { Replaceable self.old label → self.new ≡ settled self.old label page }
    {
        self.supersede(label);
        let index = usize::from(label);
        if index < self.map.len() {
            self.map[index] = Some(page);
        }
        self.free = self.free.saturating_sub(1);
        self.start = self.geometry.after(page);
    }

    // Tries one place after another until a program is good, and says how many tries that took.
    pub fn write<C: Chip>(
        &mut self,
        chip: &mut C,
        label: u16,
        bytes: &[u8],
        skip: Option<u16>,
    ) -> Result<u32, Refusal>
        ensures { CanWrite (C.Chip.means chip.old) self.old skip label (length bytes.now) → Writes (C.Chip.means chip.old) self.old skip label bytes.now result (C.Chip.means chip.new) self.new }
    {
        // Not over a range: how often a program may fail, the chip alone knows. So the tries are counted here.
        let mut tries = 0;
        loop {
            let page = self.place(chip, skip).ok_or(Refusal::TablesDisagree)?;
            tries += 1;
            let good = chip
                .program(page, label, bytes)
                .map_err(|_| Refusal::TablesDisagree)?;
            if good {
                self.settle(label, page);
                return Ok(tries);
            }
            self.spoil(page);
        }
    }
}
