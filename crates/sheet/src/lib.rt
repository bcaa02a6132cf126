// A sheet of jobs, a line each, answered by a sheet of plans.
#![tactic(auto)]

mod sheets;
#[cfg(test)]
mod tests;

pub use sheets::{MOST_BYTES, plan_sheet};
