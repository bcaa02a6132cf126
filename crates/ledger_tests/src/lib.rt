// Examples of the ledger, call by call.
#![tactic(auto)]

#[cfg(test)]
mod tests;
