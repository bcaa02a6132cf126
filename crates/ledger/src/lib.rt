// Seats and tokens: plain numbers, no chip.
#![tactic(auto)]

mod admission;
mod calls;
mod clock;
mod frame;
mod inner;
mod ledger;
mod moves;
mod opening;
mod reads;
mod refusal;
mod seat;
mod totals;

pub use frame::Frame;
pub use ledger::{Ledger, SEATS};
pub use refusal::Refusal;
pub use seat::{Seat, Status};
