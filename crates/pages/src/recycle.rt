ghost use Rattle.std.specs.Prelude.{◌≡◌, ℕ, ◌+◌, ◌^◌, ◌<◌};
ghost use Rattle.history.specs.Work.{after_wipe};
ghost use Rattle.pages.specs.Recycle.{added, CanEmpty, Empties, CanWipe, Wipes, CanRecycle, Recycles};

use crate::emptied::Emptied;
use crate::tables::Tables;
use chip::Chip;
use chooser::{Chooser, Question};
use ledger::Refusal;

impl Emptied {
    // One page more was looked at, and copied if any program was called for it. Not by `Add`: what is added is one
    // page's programs.
    fn with(self, made: u32) -> Emptied
        ensures { self.copies + 1 < 2 ^ 32 → self.tries + made < 2 ^ 32 → result ≡ added self made }
    {
        Emptied {
            copies: self.copies.saturating_add(u32::from(made > 0)),
            tries: self.tries.saturating_add(made),
        }
    }
}

impl Tables {
    // Copies every live page of a block out of it, in ascending order, through a buffer that takes any page.
    pub fn empty<C: Chip>(&mut self, chip: &mut C, block: u16) -> Result<Emptied, Refusal>
        ensures { CanEmpty (C.Chip.means chip.old) self.old block 512 → Empties (C.Chip.means chip.old) self.old block result (C.Chip.means chip.new) self.new }
    {
        if block >= self.geometry.blocks {
            return Err(Refusal::TablesDisagree);
        }
        // As large as any page: there is no heap.
        let mut buffer = [0u8; 512];
        let mut done = Emptied::default();
        let first = block * self.geometry.pages_per_block;
        for page in first..first + self.geometry.pages_per_block {
            let made = self.copy_one(chip, &mut buffer, block, page)?;
            done = done.with(made);
        }
        Ok(done)
    }

    // Where the search starts when a block has been erased: at the block's first page, if it lay in the block.
    fn restart(&self, block: u16) -> u16
        requires { block < 64 }
        ensures { result ≡ after_wipe self.now.geometry.pages_per_block block self.now.start }
    {
        if self.geometry.block_of(self.start) == block {
            block * self.geometry.pages_per_block
        } else {
            self.start
        }
    }

    // Erases a block that holds no live page.
    pub fn wipe<C: Chip>(&mut self, chip: &mut C, block: u16) -> Result<(), Refusal>
        ensures { CanWipe (C.Chip.means chip.old) self.old block → Wipes (C.Chip.means chip.old) self.old block result (C.Chip.means chip.new) self.new }
    {
        // By `as`, here and in `recycle`: tried by `From`, the proofs did not close, which do not see through the call.
        let index = block as usize;
        if index >= self.dead.len() {
            return Err(Refusal::TablesDisagree);
        }
        chip.erase(block).map_err(|_| Refusal::TablesDisagree)?;
        self.free = self.free.saturating_add(u16::from(self.dead[index]));
        self.dead[index] = 0;
        self.start = self.restart(block);
        Ok(())
    }

    // Empties and erases the block that the chooser names.
    pub fn recycle<C: Chip, H: Chooser>(
        &mut self,
        chip: &mut C,
        chooser: &mut H,
    ) -> Result<Emptied, Refusal>
        ensures { (α : ℕ) → CanRecycle (C.Chip.means chip.old) self.old α → Recycles (C.Chip.means chip.old) self.old α result (C.Chip.means chip.new) self.new }
    {
        let blocks = self.geometry.blocks as usize;
        let block = chooser.choose(Question {
            dead: &self.dead[0..blocks],
        });
        let done = self.empty(chip, block)?;
        self.wipe(chip, block)?;
        Ok(done)
    }
}
