//! Tests of the readers of records, requests and manifests.
#![tactic(auto)]

#[cfg(test)]
mod tests;
