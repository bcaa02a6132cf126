use crate::open::Open;
use chip::Chip;
use chooser::Chooser;
use std::marker::Model;

// A store is put together from any chip and any chooser, which it holds by value, and is shut until it is opened.
// While it is open its chip, its tables and its ledger belong together: no call leaves them otherwise.
// Each call asks for itself whether it is open: a method that lends what is there would lend the whole store, and
// `save`, `read` and `tick` need the chip beside it.
#[derive(Drop)]
pub struct Store<C: Chip, H: Chooser> {
    pub(crate) chip: C,
    pub(crate) chooser: H,
    pub(crate) opened: Option<Open>,
}

// Contracts see the three fields, and every store is sound. Not by a ghost field: where one cites `Chip`, a generic
// struct cannot have a store over a pair of its own chips in a field.
impl<C: Chip, H: Chooser> Model for Store<C, H> {
    ghost use Rattle.store.specs.State.{Parts, parts, Sound, standing};

    ghost Value = { Parts C H };

    ghost view = { λ s. parts s.chip s.chooser s.opened };

    ghost invariant = { λ s. Sound (standing C.Chip.means s.chip s.chooser s.opened) };
}

// The right to one page write of a seat. It is neither `Drop` nor `Copy`: whoever holds one has to spend it,
// by a save or by handing it back.
pub struct Permit {
    pub(crate) seat: u8,
}
