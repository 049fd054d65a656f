//! Tests of desks, layers, roots and their packages.
#![tactic(auto)]

#[cfg(test)]
mod tests;
