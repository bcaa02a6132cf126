// Worked cases of the crate `chip`: slots written out byte by byte, failing programs counted one by one, pairs of pairs,
// chips that come by value.
#![tactic(auto)]

#[cfg(test)]
mod flaws;
#[cfg(test)]
mod pairs;
#[cfg(test)]
mod slots;
#[cfg(test)]
mod taken;

// The bytes of a slot before its data: each slot of the dump in `slots` begins with so many. The name for it in `chip` is
// private there.
pub const HEADER: usize = 16;
