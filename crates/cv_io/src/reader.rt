ghost use Rattle.std.specs.Prelude.{◌≡◌, ℕ, List, IfOk, false, is_err};
ghost use Rattle.cv_seq.specs.Cause.{CausedBy};
ghost use Rattle.cv_io.specs.Fault.{is_read_fault};
ghost use Rattle.cv_io.specs.Lines.{Finished, lines_of, reading_of};
ghost use Rattle.cv_io.specs.Reader.{Step, Reads, Gives, Narrows, IsAhead, reading, ungiven, new_reader};

use crate::gather::Gather;
use crate::line::{Line, LineError};
use crate::source::Source;
use cv_seq::NoMemory;
use std::alloc::Global;
use std::marker::Model;

/// Reads a source line by line, within two limits.
#[derive(Drop)]
pub struct LineReader {
    gather: Gather,
    spent: bool,
}

impl Model for LineReader {
    ghost use Rattle.cv_io.specs.Lines.{Finished, lines_of, reading_of};
    ghost use Rattle.cv_io.specs.Reader.{Reader};
    ghost use Rattle.cv_io.specs.code.Gather.{reader_of};

    ghost Value = { Reader };

    ghost view = { λ r. reader_of r.gather r.spent };
}

impl LineReader {
    /// A line may have `max_line` bytes before its LF, its CR among them, and the input fewer than
    /// `max_input` bytes. More than `max_input` bytes are never taken from the source.
    #[tactic(auto, using(crate::proofs::Readings::reading_finished))]
    pub fn new(alloc: Global, max_line: usize, max_input: u64) -> Result<LineReader, NoMemory>
        ensures value { IfOk result (λ r. r ≡ new_reader max_line max_input) }
        ensures whole { (bytes : List ℕ) → (reading_of max_line max_input bytes).stop ≡ Finished →
            (reading_of max_line max_input bytes).lines ≡ lines_of bytes }
    {
        Ok(LineReader {
            gather: Gather::new(alloc, max_line, max_input)?,
            spent: false,
        })
    }

    /// Whether a refusal was answered.
    pub fn is_spent(&self) -> bool
        ensures { result ≡ self.now.spent }
    {
        self.spent
    }

    /// The next line, without its LF and the one CR before it. The bytes after the last LF are a line if there are any.
    /// Every refusal makes the reader spent.
    pub fn next<S: Source>(&mut self, alloc: Global, input: &mut S) -> Result<Line, LineError>
        requires { self.old.spent ≡ false }
        ensures step { Step self.old self.new (S.remaining input.old) (S.remaining input.new) result }
        ensures reads { Reads (reading self.old (S.remaining input.old)) (reading self.new (S.remaining input.new)) result }
        ensures gives { Gives (ungiven self.old (S.remaining input.old)) (ungiven self.new (S.remaining input.new)) result }
        ensures room { Narrows self.old self.new result }
        ensures ahead { IsAhead self.new result }
        ensures spent { self.new.spent ≡ is_err result }
        ensures max_line { self.new.max_line ≡ self.old.max_line }
        ensures max_input { self.new.max_input ≡ self.old.max_input }
        ensures cause { CausedBy (S.faults input.old) (S.faults input.new) (is_read_fault result) }
    {
        let answer = self.gather.next_line(alloc, input);
        self.spent = answer.is_err();
        answer
    }
}
