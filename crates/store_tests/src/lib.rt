// Examples of the store, call by call: what it refuses, and whole evenings over several chips and choosers.
#![tactic(auto)]

#[cfg(test)]
mod evenings;
#[cfg(test)]
mod refusals;
