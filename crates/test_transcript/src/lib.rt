//! Tests of the lines of a transcript and their order.
#![tactic(auto)]

#[cfg(test)]
mod tests;
