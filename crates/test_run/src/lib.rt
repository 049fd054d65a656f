//! Tests of the whole program over layers made in memory.
#![tactic(auto)]

#[cfg(test)]
mod tests;
