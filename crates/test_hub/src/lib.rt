//! Tests of the pool, of the hub, and of starts from a kept file.
#![tactic(auto)]

#[cfg(test)]
mod tests;
