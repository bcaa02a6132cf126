// The store: seats, permits, saves and a collector on the clock, over any chip and any chooser.
// Each of the eight calls has its own effect, and the promise over every history of calls that led to it. The promise
// is written out at each call and has no name of its own, since it is what a caller comes to read.
#![tactic(auto)]

mod open;
mod opening;
mod reads;
mod saves;
mod seats;
mod store;
mod tick;
mod ticked;

pub use store::{Permit, Store};
pub use ticked::Ticked;
