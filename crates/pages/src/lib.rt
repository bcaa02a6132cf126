// The page map over any chip: where each page number stands, which pages are free and dead, and the work of
// writing a page and of emptying a block.
#![tactic(auto)]

mod copy;
mod emptied;
mod geometry;
mod recycle;
mod search;
mod tables;
mod write;

pub use emptied::Emptied;
pub use geometry::Geometry;
pub use tables::{MOST_BLOCKS, MOST_NUMBERS, Tables};
