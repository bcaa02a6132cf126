// Sums over the books. Each is a `for`: tried with `map` and `sum`, the proof did not close, since a chain is bounded by
// whatever its closure may answer, and a partial sum is known to fit for the books' own seats alone.
ghost use Rattle.std.specs.Prelude.{◌≡◌, ◌*◌, ◌≤◌};
ghost use Rattle.ledger.specs.Books.{extra, held, highest};
ghost use Rattle.ledger.specs.Of.{books_of};

use crate::ledger::Ledger;

impl Ledger {
    // The most tokens that can be out when a block is chosen.
    pub(crate) fn highest(&self) -> u32
        ensures value { result ≡ highest (books_of self.now) }
        ensures bound { result ≤ 2112 }
    {
        self.frame.pool + self.frame.allowance + self.extra()
    }

    // The tokens of the seats and of their collectors.
    pub(crate) fn held(&self) -> u32
        ensures sum { result ≡ held self.now.seats }
        ensures bound { result ≤ 8 * 33824 }
    {
        let mut sum = 0;
        for seat in &self.seats {
            sum += seat.account + seat.collector;
        }
        sum
    }

    // What the runs of the seats, each but the last of its meta-period, can add to the tokens. Not one function with
    // `held`: another summand, and a filter.
    fn extra(&self) -> u32
        ensures sum { result ≡ extra self.now.frame.alpha self.now.seats }
        ensures bound { result ≤ 8 * 32736 }
    {
        let mut sum = 0;
        for seat in &self.seats {
            if seat.is_in_use() {
                sum += (seat.plan.runs - 1) * self.frame.alpha;
            }
        }
        sum
    }
}
