// Scripts: lines of words, numbers in words, and numbers in answers.
#![tactic(auto)]

mod numbers;
mod readers;
mod reading;
#[cfg(test)]
mod tests;
mod writing;

pub use numbers::number;
pub use readers::{Line, Script};
pub use writing::push_number;
