//! Tests of the readers of package files and of the orders of versions.
#![tactic(auto)]

#[cfg(test)]
mod tests;
