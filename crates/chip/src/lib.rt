// Flash chips behind one meaning: a list of pages and an allowance of page writes that may still fail.
#![tactic(auto)]

mod chip;
mod flawed;
mod gaps;
mod pair;
mod plain;
mod size;
mod slot;
mod words;

pub use chip::Chip;
pub use flawed::Flawed;
pub use pair::Pair;
pub use plain::Plain;
pub use size::Size;
pub use words::{Kind, Refusal, Shape};
