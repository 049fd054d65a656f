//! Tests of the service, its threads and the drill.
#![tactic(auto)]

#[cfg(test)]
mod tests;
