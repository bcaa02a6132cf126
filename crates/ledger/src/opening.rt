// The books as an opening makes them.
ghost use Rattle.std.specs.Prelude.{◌≡◌, if◌then◌else◌, true, Some, None};
ghost use Rattle.std.specs.Option.{option_map};
ghost use Rattle.ledger.specs.Fair.{idle, opened, stands};
ghost use Rattle.ledger.specs.Of.{books_of};

use crate::frame::Frame;
use crate::ledger::{Ledger, SEATS};
use crate::seat::Seat;

impl Ledger {
    // Eight empty seats, the whole pool, and the allowance in the spare account; nothing where the frame does
    // not stand.
    pub fn opened(frame: Frame) -> Option<Ledger>
        ensures { option_map books_of result ≡ (if stands frame then Some (opened frame) else None) }
    {
        frame.stands().then(|| Ledger::fresh(frame))
    }

    // Books with no tokens at all.
    pub fn idle() -> Ledger
        ensures { books_of result ≡ opened idle }
    {
        Ledger::fresh(Frame {
            blocks: 2,
            pages_per_block: 2,
            page_size: 1,
            allowance: 0,
            numbers: 1,
            alpha: 1,
            pool: 0,
        })
    }

    // The books for a frame that stands.
    fn fresh(frame: Frame) -> Ledger
        requires { stands frame ≡ true }
        ensures { books_of result ≡ opened frame }
    {
        Ledger {
            seats: [Seat::default(); SEATS],
            pool: frame.pool,
            spare: frame.allowance,
            frame,
        }
    }

    // What the opening fixed.
    pub fn frame(&self) -> Frame
        ensures { result ≡ (books_of self.now).frame }
    {
        self.frame
    }
}
