// The plan of a seat, and the yield rule: plain numbers, no chip and no store.
#![tactic(auto)]

mod exports;
mod figures;
mod numbers;
mod plans;
#[cfg(test)]
mod tests;
mod yields;

pub use exports::{plan_meta_period, plan_runs, plan_writes};
pub use figures::figures_hold;
pub use numbers::{Job, Plan};
pub use yields::yield_rule;
