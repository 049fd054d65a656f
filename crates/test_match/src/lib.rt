//! Tests of ranges, matching and the order of findings.
#![tactic(auto)]

#[cfg(test)]
mod tests;
