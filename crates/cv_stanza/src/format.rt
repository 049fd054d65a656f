//! What a format has to say of its blocks.
ghost use Rattle.std.specs.Prelude.{◌≡◌, ℕ, List};
ghost use Rattle.cv_base.specs.Answer.{MatchesUnlessOutOfMemory};
ghost use Rattle.cv_stanza.specs.Blocks.{BlockRules};
ghost use Rattle.cv_stanza.specs.code.Steps.{Agrees, BlockSteps, closed, line_fault};

use crate::line_error::LineResult;
use std::alloc::Global;

/// A format of files that are blocks between empty lines. Blocks borrow from the file.
pub trait BlockFormat<'a> {
    /// A block as far as it was read.
    type Block: Drop;

    /// What a file is read into.
    type Item: Drop;

    /// What is kept of a block.
    ghost State: { Type 0 };

    ghost state: { Self.Block → State };

    /// A line as it counts.
    ghost trimmed: { List ℕ → List ℕ };

    /// The rules of the format.
    ghost rules: { Self → BlockRules Self.Item };

    /// How a block is read line by line.
    ghost steps: { Self → BlockSteps State Self.Item };

    /// What is kept of these lines of a block.
    ghost kept: { List (List ℕ) → State };

    /// Reading line by line follows the rules.
    ghost agrees: { (format : Self) → Agrees (rules format) (steps format) kept };

    /// A line without what does not count at its ends.
    fn trim(line: &'a [u8]) -> &'a [u8]
        ensures { result.now ≡ trimmed line.now };

    /// A block of which no line was read.
    fn open(&self, alloc: Global) -> Self::Block
        ensures { state result ≡ (steps self.now).opening };

    /// Takes one more line, which is not empty.
    fn take(&self, block: &mut Self::Block, line: &'a [u8]) -> LineResult
        ensures { MatchesUnlessOutOfMemory line_fault (λ _. state block.new) result ((steps self.now).step (state block.old) line.now) };

    /// Ends a block of one line or more: adds what it is read into.
    fn close(&self, alloc: Global, block: &Self::Block, found: &mut Vec<Self::Item>) -> LineResult
        ensures { MatchesUnlessOutOfMemory line_fault (λ _. found.new.items) result (closed (steps self.now) (state block.now) found.old.items) };
}
