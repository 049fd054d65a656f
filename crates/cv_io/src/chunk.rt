ghost use Rattle.std.specs.Prelude.{◌≡◌, ◌≤◌, ◌<◌, ℕ, [], length, take, drop, slice_index, MatchOption, MatchResult, IfOk};
ghost use Rattle.std.specs.Io.KnownBytes.{Consumes, IsAtEnd, Keeps};
ghost use Rattle.cv_seq.specs.Cause.{CausedBy};
ghost use Rattle.cv_io.specs.Fault.{is_failed};
ghost use Rattle.cv_io.specs.Lines.{HasNoLineEnd, LF};

use crate::fault::IoFault;
use crate::source::Source;
use cv_seq::NoMemory;
use memchr::memchr;
use std::alloc::Global;
use std::marker::Model;

const LENGTH: usize = 65_536;

/// The bytes of the last read that were not yet taken, seen as their list.
#[derive(Drop)]
pub struct Chunk {
    bytes: Vec<u8>,
    at: usize,
    end: usize,
}

impl Model for Chunk {
    ghost use Rattle.std.specs.Prelude.{ℕ, List, ◌≡◌, ◌≤◌, length, take, drop};

    ghost Value = { List ℕ };

    ghost view = { λ c. drop c.at (take c.end c.bytes.items) };

    ghost invariant = { λ c. (c.at ≤ c.end) × (c.end ≤ length c.bytes.items) × (length c.bytes.items ≡ 65536) };
}

impl Chunk {
    /// An empty one.
    pub fn new(alloc: Global) -> Result<Chunk, NoMemory>
        ensures { IfOk result (λ c. c ≡ []) }
    {
        Ok(Chunk {
            bytes: vec![in alloc; 0u8; LENGTH]?,
            at: 0,
            end: 0,
        })
    }

    /// The bytes, which are those of one read at most.
    pub fn as_slice(&self) -> &[u8]
        ensures bytes { result.now ≡ self.now }
        ensures few { length self.now ≤ 65536 }
    {
        &self.bytes.as_slice()[self.at..self.end]
    }

    /// The index of the first LF.
    pub fn line_end(&self) -> Option<usize>
        ensures { MatchOption result (HasNoLineEnd self.now)
            (λ n. HasNoLineEnd (take n self.now) × (n < length self.now) × (slice_index self.now n ≡ LF)) }
    {
        memchr(b'\n', self.as_slice())
    }

    /// Drops the first bytes.
    pub fn advance(&mut self, count: usize)
        requires { count ≤ length self.old }
        ensures { self.new ≡ drop count self.old }
    {
        self.at += count;
    }

    /// Reads at most `limit` bytes, with one read. None means the end.
    pub fn fill<S: Source>(&mut self, input: &mut S, limit: usize) -> Result<usize, IoFault>
        requires empty { self.old ≡ [] }
        requires room { 0 < limit }
        ensures bytes { MatchResult result
            (λ n. Consumes (S.remaining input.old) (S.remaining input.new) self.new × (n ≡ length self.new) × (n ≤ limit) × (n ≡ 0 → IsAtEnd (S.remaining input.new)))
            (λ _. Keeps (S.remaining input.old) (S.remaining input.new) × (self.new ≡ [])) }
        ensures cause { CausedBy (S.faults input.old) (S.faults input.new) (is_failed result) }
    {
        self.at = 0;
        self.end = 0;
        self.end = read_front(input, self.bytes.as_mut_slice(), limit.min(LENGTH))?;
        Ok(self.end)
    }
}

/// Reads into the front of `buf`, at most `limit` bytes.
fn read_front<S: Source>(input: &mut S, buf: &mut [u8], limit: usize) -> Result<usize, IoFault>
    requires room { 0 < limit }
    requires fits { limit ≤ length buf.old }
    ensures bytes { MatchResult result
        (λ n. Consumes (S.remaining input.old) (S.remaining input.new) (take n buf.new) × (n ≤ limit) × (n ≡ 0 → IsAtEnd (S.remaining input.new)))
        (λ _. Keeps (S.remaining input.old) (S.remaining input.new)) }
    ensures cause { CausedBy (S.faults input.old) (S.faults input.new) (is_failed result) }
{
    input.read(&mut buf[..limit])
}
