// Policies that pick the block to empty, behind one law: the block named has at least the average of dead pages.
#![tactic(auto)]

mod chooser;
mod counts;
mod greedy;
mod hand;
mod question;
mod worth;

pub use chooser::Chooser;
pub use greedy::Greedy;
pub use hand::Hand;
pub use question::Question;
pub use worth::block_to_empty;

#[cfg(test)]
mod tests;
