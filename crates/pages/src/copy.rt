ghost use Rattle.std.specs.Prelude.{◌≡◌, ◌&&◌, length, nat_lt};
ghost use Rattle.history.specs.Pages.{names};
ghost use Rattle.pages.specs.Tied.{maps_of};
ghost use Rattle.pages.specs.Copy.{CanCopy, Copies};

use crate::tables::Tables;
use chip::Chip;
use ledger::Refusal;

impl Tables {
    // Does the map name this page for a label?
    fn names(&self, label: u16, page: u16) -> bool
        ensures { result ≡ (nat_lt label 1920 && names (maps_of self.now label) page) }
    {
        self.page_of(label) == Some(page)
    }

    // Copies a page out of its block if it is live, and says how many programs that took: none if it is not. So 0 is an
    // answer like any other, and no `None`.
    pub fn copy_one<C: Chip>(
        &mut self,
        chip: &mut C,
        buffer: &mut [u8],
        block: u16,
        page: u16,
    ) -> Result<u32, Refusal>
        ensures { CanCopy (C.Chip.means chip.old) self.old block page (length buffer.old) → Copies (C.Chip.means chip.old) self.old block page result (C.Chip.means chip.new) self.new }
    {
        let Ok((label, length)) = chip.fetch(page, buffer) else {
            return Ok(0);
        };
        if !self.names(label, page) {
            return Ok(0);
        }
        self.write(chip, label, &buffer[0..length], Some(block))
    }
}
