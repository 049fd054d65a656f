//! Tests of the basic types, paths, plain data, streams and maps.
#![tactic(auto)]

#[cfg(test)]
mod tests;
