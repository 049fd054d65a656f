//! Tests of the journal over a disk in memory and of the records of rounds.
#![tactic(auto)]

#[cfg(test)]
mod tests;
