// The calls on one seat: what they answer, what they make of the books, and what they keep. A law ties the books
// before a call to those after it, so no field can hold it: each call says it. So too
// what the calls that return a permit answer, by `asks_return`.
ghost use Rattle.std.specs.Prelude.{◌≡◌, ◌<◌, ◌≤◌, MatchResult};
ghost use Rattle.ledger.specs.Books.{answer, unless, asks_notice, asks_take, asks_return, noticed, taken, returned, spent, paid, paid_for};
ghost use Rattle.ledger.specs.Keeps.{Keeps, Spends, SpendsMany};
ghost use Rattle.ledger.specs.Of.{books_of};

use crate::ledger::Ledger;
use crate::refusal::Refusal;

impl Ledger {
    // Puts a serving seat that has no permit out under notice.
    pub fn notice(&mut self, seat: u8) -> Result<(), Refusal>
        ensures answer { result ≡ answer (asks_notice (books_of self.old) seat) tt }
        ensures books { let before = books_of self.old in books_of self.new ≡ unless (asks_notice before seat) (noticed before seat) before }
        ensures law { Keeps (books_of self.old) (books_of self.new) }
    {
        let found = self.find(seat)?;
        if !found.serves() {
            return Err(Refusal::SeatNotServing);
        }
        if found.out != 0 {
            return Err(Refusal::PermitsOut);
        }
        self.seats[usize::from(seat)] = found.warned();
        Ok(())
    }

    // Grants a permit to a serving seat whose writes are not all charged.
    pub fn take(&mut self, seat: u8) -> Result<(), Refusal>
        ensures answer { result ≡ answer (asks_take (books_of self.old) seat) tt }
        ensures books { let before = books_of self.old in books_of self.new ≡ unless (asks_take before seat) (taken before seat) before }
        ensures law { Keeps (books_of self.old) (books_of self.new) }
    {
        let found = self.find(seat)?;
        if !found.serves() {
            return Err(Refusal::SeatNotServing);
        }
        if found.charge >= found.plan.writes {
            return Err(Refusal::AllCharged);
        }
        self.seats[usize::from(seat)] = found.took();
        Ok(())
    }

    // Takes a permit back: its write is charged no longer.
    pub fn hand_back(&mut self, seat: u8) -> Result<(), Refusal>
        ensures answer { result ≡ answer (asks_return (books_of self.old) seat) tt }
        ensures books { let before = books_of self.old in books_of self.new ≡ unless (asks_return before seat) (returned before seat) before }
        ensures law { Keeps (books_of self.old) (books_of self.new) }
    {
        let found = self.holder(seat)?;
        self.seats[usize::from(seat)] = found.gave_back();
        Ok(())
    }

    // May a save spend a permit of this seat?
    pub fn may_spend(&self, seat: u8) -> Result<(), Refusal>
        ensures { result ≡ answer (asks_return (books_of self.now) seat) tt }
    {
        self.holder(seat).map(|_| ())
    }

    // A save was stored: the seat's account and one of its permits pay for it.
    pub fn spend(&mut self, seat: u8) -> Result<(), Refusal>
        ensures answer { result ≡ answer (asks_return (books_of self.old) seat) tt }
        ensures books { let before = books_of self.old in books_of self.new ≡ unless (asks_return before seat) (spent before seat) before }
        ensures law { MatchResult result (λ _. Spends (books_of self.old) (books_of self.new)) (λ _. Keeps (books_of self.old) (books_of self.new)) }
    {
        let found = self.holder(seat)?;
        self.seats[usize::from(seat)] = found.saved();
        Ok(())
    }

    // A page write failed: the spare account pays for it, and no seat.
    pub fn pay(&mut self)
        ensures books { books_of self.new ≡ paid (books_of self.old) }
        ensures law { 0 < (books_of self.old).spare → Spends (books_of self.old) (books_of self.new) }
    {
        self.pay_for(1);
    }

    // So many page writes failed: the spare account pays for them, and no seat.
    pub fn pay_for(&mut self, failed: u32)
        ensures books { books_of self.new ≡ paid_for failed (books_of self.old) }
        ensures law { failed ≤ (books_of self.old).spare → SpendsMany failed (books_of self.old) (books_of self.new) }
    {
        self.spare = self.spare.saturating_sub(failed);
    }
}
