// Saving a page.
ghost use Rattle.std.specs.Prelude.{◌≡◌, length};
ghost use Rattle.ledger.specs.Books.{answer};
ghost use Rattle.ledger.specs.Of.{books_of};
ghost use Rattle.history.specs.History.{History};
ghost use Rattle.store.specs.State.{Sound};
ghost use Rattle.store.specs.Seen.{seen};
ghost use Rattle.store.specs.Effects.{asks_page, Saves};
ghost use Rattle.store.specs.Calls.{Run, Entered, entry_save};

use crate::open::Open;
use crate::store::{Permit, Store};
use chip::Chip;
use chooser::Chooser;
use ledger::Refusal;

impl Open {
    // Are page number and length in range?
    fn takes_page(&self, number: u16, size: usize) -> Result<(), Refusal>
        ensures { result ≡ answer (asks_page (books_of self.now.ledger) number size) tt }
    {
        let frame = self.ledger.frame();
        if u32::from(number) >= frame.numbers {
            return Err(Refusal::NoSuchNumber);
        }
        // There is no `From` to `usize` from 32 bits; nothing is lost, a page size is at most 512.
        if size > frame.page_size as usize {
            return Err(Refusal::DataTooLong);
        }
        Ok(())
    }
}

impl<C: Chip, H: Chooser> Store<C, H> {
    // Saves bytes under a page number, and answers how many tries that took: the spare account pays for the failed
    // ones, the seat for the good one. The permit is spent whatever the answer. Number and bytes come one by one, as the
    // rules list them.
    pub fn save(&mut self, permit: Permit, number: u16, bytes: &[u8]) -> Result<u32, Refusal>
        ensures effect { Saves (seen C.Chip.means self.old) permit.seat number bytes.now result (seen C.Chip.means self.new) }
        ensures sound { Sound (seen C.Chip.means self.new) }
        ensures promise { (h : History) → Run h (seen C.Chip.means self.old) → Entered (entry_save permit.seat number bytes.now result) h (seen C.Chip.means self.new) }
    {
        let Permit { seat } = permit;
        let open = self.opened.as_mut().ok_or(Refusal::NotOpen)?;
        open.ledger.may_spend(seat)?;
        // Not by `?`: a page that is refused hands the permit back first, and a closure would borrow the ledger again.
        if let Err(refusal) = open.takes_page(number, bytes.len()) {
            let _ = open.ledger.hand_back(seat);
            return Err(refusal);
        }
        let tries = open.tables.write(&mut self.chip, number, bytes, None)?;
        open.ledger.pay_for(tries.saturating_sub(1));
        open.ledger.spend(seat)?;
        Ok(tries)
    }
}
