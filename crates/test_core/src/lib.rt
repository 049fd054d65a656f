//! Tests of notifications, the outbox, outcomes and the core.
#![tactic(auto)]

#[cfg(test)]
mod tests;
