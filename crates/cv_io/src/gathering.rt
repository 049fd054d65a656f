ghost use Rattle.std.specs.Prelude.{◌≡◌, ◌≤◌, ◌<◌, ◌+◌, ◌++◌, ◌∷◌, ◌⊎◌, ℕ, [], length, Bool, true, false, IfOk, IfErr, OnOk, OnErr, Ok, Err};
ghost use Rattle.std.specs.Bool.{MatchBool};
ghost use Rattle.cv_seq.specs.Cause.{CausedBy};
ghost use Rattle.cv_io.specs.Fault.{is_read_fault};
ghost use Rattle.cv_io.specs.Lines.{HasNoLineEnd, LF, text_of};
ghost use Rattle.cv_io.specs.Takes.{Takes};
ghost use Rattle.cv_io.specs.Reader.{Answers, IsAhead, Step, new_reader};
ghost use Rattle.cv_io.specs.code.Gather.{SameCounts, SameLimits, gathered, held_by, progress_by, reader_of, reads_remaining};

use crate::chunk::Chunk;
use crate::gather::Gather;
use crate::line::{Line, LineError, line_error};
use crate::source::Source;
use cv_seq::{NoMemory, Seq};
use std::alloc::Global;
use std::mem;

impl Gather {
    /// Nothing is taken yet.
    pub fn new(alloc: Global, max_line: usize, max_input: u64) -> Result<Gather, NoMemory>
        ensures { IfOk result (λ g. reader_of g false ≡ new_reader max_line max_input) }
    {
        Ok(Gather {
            line: Vec::new(alloc),
            chunk: Chunk::new(alloc)?,
            taken: 0,
            ended: false,
            max_line,
            max_input,
        })
    }

    /// The next line, without its LF and the one CR before it.
    pub fn next_line<S: Source>(&mut self, alloc: Global, input: &mut S) -> Result<Line, LineError>
        ensures step { (was is : Bool) → Step (reader_of self.old was) (reader_of self.new is)
            (S.remaining input.old) (S.remaining input.new) result }
        ensures ahead { (is : Bool) → IsAhead (reader_of self.new is) result }
        ensures limits { SameLimits self.old self.new }
        ensures cause { CausedBy (S.faults input.old) (S.faults input.new) (is_read_fault result) }
    {
        let found = self.gather(input)?;
        let mut line = self.take_line(alloc);
        if !found && line.is_empty() {
            return Ok(Line::End);
        }
        drop_cr(&mut line);
        Ok(Line::Text(Seq::of(line)))
    }

    /// Gathers a line up to its LF, which is dropped, or else up to the end of the input. Returns whether
    /// there was an LF.
    fn gather<S: Source>(&mut self, input: &mut S) -> Result<bool, LineError>
        ensures takes { Takes (held_by self.old) (gathered result self.new) (progress_by self.old) (progress_by self.new)
            (S.remaining input.old) (S.remaining input.new) }
        ensures needed { HasNoLineEnd (held_by self.old) ⊎ (progress_by self.new ≡ progress_by self.old) }
        ensures last { IfOk result (λ found. found ≡ false → (self.new.chunk ≡ []) × (self.new.ended ≡ true)) }
        ensures ahead { IfOk result (λ found. length self.new.chunk < 65536) }
        ensures refused { IfErr result (λ e. Answers (held_by self.new) (reader_of self.new false) (Err e)) }
        ensures limits { SameLimits self.old self.new }
        ensures cause { CausedBy (S.faults input.old) (S.faults input.new) (is_read_fault result) }
    {
        'pieces: loop {
            if self.take_piece()? {
                return Ok(true);
            }
            if self.ended {
                return Ok(false);
            }
            if self.taken == self.max_input {
                return Err(LineError::InputTooLong);
            }
            self.fill(input)?;
        }
    }

    /// Moves the chunk's bytes up to its first LF into the line, and drops the LF. Returns whether there
    /// was one.
    fn take_piece(&mut self) -> Result<bool, LineError>
        ensures moved { gathered result self.new ≡ held_by self.old }
        ensures emptied { IfOk result (λ found. found ≡ false → self.new.chunk ≡ []) }
        ensures ahead { IfOk result (λ found. length self.new.chunk < 65536) }
        ensures refused { IfErr result (λ e. Answers (held_by self.new) (reader_of self.new false) (Err e)) }
        ensures counts { SameCounts self.old self.new }
        ensures cause { is_read_fault result ≡ false }
    {
        let end = self.chunk.line_end();
        let count = end.unwrap_or(self.chunk.as_slice().len());
        if count > self.max_line - self.line.len() {
            return Err(LineError::LineTooLong);
        }
        let (front, _) = self.chunk.as_slice().split_at(count);
        if self.line.extend_from_slice(front).is_err() {
            return Err(LineError::NoMemory);
        }
        self.chunk
            .advance(if end.is_some() { count + 1 } else { count });
        Ok(end.is_some())
    }

    /// Reads once, into the chunk.
    fn fill<S: Source>(&mut self, input: &mut S) -> Result<(), LineError>
        requires empty { self.old.chunk ≡ [] }
        requires not_ended { self.old.ended ≡ false }
        requires room { self.old.taken < self.old.max_input }
        ensures takes { Takes (held_by self.old) (held_by self.new) (progress_by self.old) (progress_by self.new)
            (S.remaining input.old) (S.remaining input.new) }
        ensures less { OnOk result (reads_remaining self.new < reads_remaining self.old) }
        ensures refused { IfErr result (λ e. Answers (held_by self.new) (reader_of self.new false) (Err e)) }
        ensures limits { SameLimits self.old self.new }
        ensures cause { CausedBy (S.faults input.old) (S.faults input.new) (is_read_fault result) }
    {
        let room = self.max_input - self.taken;
        match self.chunk.fill(input, room as usize) {
            Ok(0) => self.ended = true,
            Ok(count) => self.taken += count as u64,
            Err(fault) => return Err(line_error(fault)),
        }
        Ok(())
    }

    fn take_line(&mut self, alloc: Global) -> Vec<u8>
        ensures line { result.items ≡ self.old.line.items }
        ensures emptied { self.new.line.items ≡ [] }
        ensures chunk { self.new.chunk ≡ self.old.chunk }
        ensures counts { SameCounts self.old self.new }
    {
        mem::replace(&mut self.line, Vec::new(alloc))
    }
}

/// Drops one CR at the end.
fn drop_cr(line: &mut Vec<u8>)
    ensures { line.new.items ≡ text_of line.old.items }
{
    if line.last() == Some(&b'\r') {
        line.pop();
    }
}
