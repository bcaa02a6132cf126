// Reading a page back.
ghost use Rattle.std.specs.Prelude.{length};
ghost use Rattle.history.specs.History.{History};
ghost use Rattle.store.specs.State.{Sound};
ghost use Rattle.store.specs.Seen.{seen};
ghost use Rattle.store.specs.Effects.{Reads};
ghost use Rattle.store.specs.Calls.{Run, Entered, entry_read, bytes_read};

use crate::store::Store;
use chip::Chip;
use chooser::Chooser;
use ledger::Refusal;

impl<C: Chip, H: Chooser> Store<C, H> {
    // Reads what was saved last under a page number into the front of the buffer, and answers its length.
    pub fn read(&mut self, number: u16, buffer: &mut [u8]) -> Result<usize, Refusal>
        ensures effect { Reads (seen C.Chip.means self.old) number buffer.old result (seen C.Chip.means self.new) buffer.new }
        ensures sound { Sound (seen C.Chip.means self.new) }
        ensures promise { (h : History) → Run h (seen C.Chip.means self.old) → Entered (entry_read number (length buffer.old) (bytes_read result buffer.new) result) h (seen C.Chip.means self.new) }
    {
        let open = self.opened.as_ref().ok_or(Refusal::NotOpen)?;
        // As a save asks it: one comparison, and no method of both.
        if u32::from(number) >= open.ledger.frame().numbers {
            return Err(Refusal::NoSuchNumber);
        }
        let page = open.tables.page_of(number).ok_or(Refusal::NothingStored)?;
        let (_, length) = self
            .chip
            .fetch(page, buffer)
            .map_err(|_| Refusal::BufferTooShort)?;
        Ok(length)
    }
}
