//! Tests of arguments and the commands that wait for nobody.
#![tactic(auto)]

#[cfg(test)]
mod tests;
