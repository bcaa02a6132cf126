// What the books hold.
ghost use Rattle.std.specs.Prelude.{◌≡◌, ◌≤◌};
ghost use Rattle.ledger.specs.Books.{highest, tokens, used_seat, seat_of};
ghost use Rattle.ledger.specs.Of.{books_of};
ghost use Rattle.ledger.specs.Settled.{Below};

use crate::ledger::Ledger;
use crate::seat::Seat;

impl Ledger {
    // The yield of a run. `frame` has it too; this call was there before it, and stays.
    pub fn alpha(&self) -> u32
        ensures { result ≡ (books_of self.now).frame.alpha }
    {
        self.frame.alpha
    }

    // The record of a seat; that of nobody past the last one.
    pub fn seat(&self, seat: u8) -> Seat
        ensures { result ≡ seat_of (books_of self.now) seat }
    {
        self.seats
            .get(usize::from(seat))
            .copied()
            .unwrap_or_default()
    }

    pub fn in_use(&self, seat: u8) -> bool
        ensures { result ≡ used_seat (books_of self.now) seat }
    {
        self.find(seat).is_ok()
    }

    // All tokens: of the pool, the spare account, the seats and their collectors. Never more than the yield rule
    // reckons with, while each seat has a run to make.
    pub fn tokens(&self) -> u32
        ensures value { result ≡ tokens (books_of self.now) }
        ensures cap { Below (books_of self.now) → result ≤ highest (books_of self.now) }
    {
        self.pool + self.spare + self.held()
    }
}
