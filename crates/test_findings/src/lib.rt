//! Tests of feeds and findings.
#![tactic(auto)]

#[cfg(test)]
mod tests;
