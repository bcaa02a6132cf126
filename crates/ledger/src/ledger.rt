ghost use Rattle.ledger.specs.Fair.{Fair};

use crate::frame::Frame;
use crate::seat::Seat;

// How many seats there are.
pub const SEATS: usize = 8;

// The books of a store: eight seats, the pool that they are admitted from, and the spare account that
// pays for failed page writes. The seats are a table, since there is no heap;
// a call reads a seat, makes it anew and puts it back by index, since of `get_mut` a proof knows no seat after the write.
#[derive(Drop)]
pub struct Ledger {
    pub(crate) seats: [Seat; SEATS],
    pub(crate) pool: u32,
    pub(crate) spare: u32,
    pub(crate) frame: Frame,
    ghost fair: { ∥ Fair seats pool spare frame ∥₁ },
}
