//! Counts what a stream has, in each format of input.
mod documents;
mod lines;
mod values;

pub use documents::{packages_in, records_in};
pub use lines::{count_lines, count_of, lines_in};
pub use values::values_in;
