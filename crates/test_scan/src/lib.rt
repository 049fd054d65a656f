//! Tests of the coalescer, scans of images, their input and their output.
#![tactic(auto)]

#[cfg(test)]
mod tests;
