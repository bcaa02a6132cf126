// The promise of a store over histories of calls: its definitions, and the theorems that lead to it.
#![tactic(auto)]

mod theorems;

pub use theorems::{place_is_one, promise_stands, seats_stand, work_stands};
