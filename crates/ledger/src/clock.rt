// A tick, in the parts that a store makes of it: the clock of a seat, its runs, and the end of its meta-period.
ghost use Rattle.std.specs.Prelude.{◌≡◌, ◌+◌, ◌<◌, ◌≤◌};
ghost use Rattle.ledger.specs.Books.{tokens, used_seat, ended};
ghost use Rattle.ledger.specs.Of.{books_of};
ghost use Rattle.ledger.specs.Settled.{Below, Settled, SettledBut};
ghost use Rattle.ledger.specs.Steps.{stepped, owes, made_one};

use crate::ledger::Ledger;

impl Ledger {
    // One tick more for a seat in use. Says whether the seat is in use.
    pub fn enter(&mut self, seat: u8) -> bool
        ensures answer { result ≡ used_seat (books_of self.old) seat }
        ensures books { books_of self.new ≡ stepped (books_of self.old) seat }
        ensures tokens { tokens (books_of self.new) ≡ tokens (books_of self.old) }
        ensures settled { Settled (books_of self.old) → SettledBut seat (books_of self.new) }
    {
        let Ok(found) = self.find(seat) else {
            return false;
        };
        if found.elapsed < found.plan.meta_period {
            self.seats[usize::from(seat)] = found.one_later();
        }
        true
    }

    // A run was made for a seat that owed one: its account gains the yield.
    pub fn ran(&mut self, seat: u8)
        ensures books { books_of self.new ≡ made_one (books_of self.old) seat }
        ensures tokens { 0 < owes (books_of self.old) seat → tokens (books_of self.new) ≡ tokens (books_of self.old) + self.old.frame.alpha }
        ensures settled { SettledBut seat (books_of self.old) → SettledBut seat (books_of self.new) }
    {
        let Ok(found) = self.find(seat) else {
            return;
        };
        if found.runs < found.due() {
            self.seats[usize::from(seat)] = found.ran(self.frame.alpha);
        }
    }

    // At its meta-period's end a serving seat starts a new one; a seat under notice is emptied, and the pool
    // has back what it lent. Once the runs that were due are made, this never makes tokens.
    pub fn end(&mut self, seat: u8)
        ensures books { books_of self.new ≡ ended (books_of self.old) seat }
        ensures tokens { owes (books_of self.old) seat ≡ 0 → tokens (books_of self.new) ≤ tokens (books_of self.old) }
        ensures settled { seat < 8 → owes (books_of self.old) seat ≡ 0 → SettledBut seat (books_of self.old) → Settled (books_of self.new) }
    {
        let Ok(found) = self.find(seat) else {
            return;
        };
        let back = if found.leaves() {
            found.plan.writes + self.frame.collector_share()
        } else {
            0
        };
        self.pool += back;
        self.seats[usize::from(seat)] = found.turned();
    }

    // How many runs the seat still owes for the ticks that have passed. While it owes one, and the other seats are
    // settled, no seat has made its last run.
    pub fn runs_due(&self, seat: u8) -> u32
        ensures value { result ≡ owes (books_of self.now) seat }
        ensures below { 0 < result → SettledBut seat (books_of self.now) → Below (books_of self.now) }
    {
        self.find(seat).map_or(0, |found| found.due() - found.runs)
    }
}
