// The questions that more than one call asks of a seat.
ghost use Rattle.std.specs.Prelude.{◌≡◌, ◌<◌, IfOk, None};
ghost use Rattle.ledger.specs.declared.refusal.Refusal.TheVariants.{SeatNotInUse};
ghost use Rattle.ledger.specs.Books.{answer, ask, used_seat, seat_of, asks_return};
ghost use Rattle.ledger.specs.Fair.{Found};
ghost use Rattle.ledger.specs.Of.{books_of};

use crate::ledger::Ledger;
use crate::refusal::Refusal;
use crate::seat::Seat;

impl Ledger {
    // The seat of a number, if it is in use and has a permit out.
    pub(crate) fn holder(&self, seat: u8) -> Result<Seat, Refusal>
        ensures answer { result ≡ answer (asks_return (books_of self.now) seat) (seat_of (books_of self.now) seat) }
        ensures found { IfOk result (λ s. Found (books_of self.now) seat s) }
        ensures out { IfOk result (λ s. 0 < s.out) }
    {
        let found = self.find(seat)?;
        if found.out == 0 {
            return Err(Refusal::NoPermitOut);
        }
        Ok(found)
    }

    // The seat of a number, if it is in use, and what the books know of it.
    pub(crate) fn find(&self, seat: u8) -> Result<Seat, Refusal>
        ensures answer { result ≡ answer (ask (used_seat (books_of self.now) seat) SeatNotInUse None) (seat_of (books_of self.now) seat) }
        ensures found { IfOk result (λ s. Found (books_of self.now) seat s) }
    {
        self.seats
            .get(usize::from(seat))
            .copied()
            .filter(|found| found.is_in_use())
            .ok_or(Refusal::SeatNotInUse)
    }
}
