ghost use Rattle.std.specs.Prelude.{◌≡◌, ◌≤◌, ◌<◌, ◌+◌, length, true, List};
ghost use Rattle.cv_io.specs.Lines.{HasNoLineEnd};

use crate::chunk::Chunk;

/// Gathers one line after another.
#[derive(Drop)]
pub struct Gather {
    pub line: Vec<u8>,
    pub chunk: Chunk,
    pub taken: u64,
    pub ended: bool,
    pub max_line: usize,
    pub max_input: u64,
    ghost whole: { HasNoLineEnd line.items },
    ghost short: { length line.items ≤ max_line },
    ghost within: { taken ≤ max_input },
    ghost before_limit: { ended ≡ true → taken < max_input },
}
