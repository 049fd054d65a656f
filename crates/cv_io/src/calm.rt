ghost use Rattle.std.specs.Prelude.{◌≡◌, ◌≤◌, ◌<◌, [], Some, false, length, min, IfOk, IsOkAnd, OnErr};
ghost use Rattle.std.specs.Io.{ReadsAtMost};
ghost use Rattle.std.specs.Io.KnownBytes.{ReadConsumes};
ghost use Rattle.cv_seq.specs.Cause.{CausedBy};
ghost use Rattle.cv_io.specs.Fault.{is_failed};
ghost use Rattle.cv_io.specs.Writes.{WritesFront};

use crate::copies::copy_front;
use crate::fault::IoFault;
use crate::sink::Sink;
use crate::source::Source;
use cv_seq::Seq;
use std::alloc::Global;
use std::marker::Model;

/// Bytes in memory, which are read in pieces. It never fails.
#[derive(Debug, Drop)]
pub struct CalmSource {
    bytes: Seq<u8>,
    at: usize,
    piece: usize,
}

impl Model for CalmSource {
    ghost use Rattle.std.specs.Prelude.{◌≤◌, length, drop};
    ghost use Rattle.cv_io.specs.Memory.{Pieces};

    ghost Value = { Pieces };

    ghost view = { λ s. record { bytes = drop s.at s.bytes; piece = s.piece } };

    ghost invariant = { λ s. (1 ≤ s.piece) × (s.at ≤ length s.bytes) };
}

impl CalmSource {
    /// All the bytes remain. It takes no memory.
    pub fn new(bytes: Seq<u8>, piece: usize) -> CalmSource
        requires { 1 ≤ piece }
        ensures { result ≡ record { bytes = bytes; piece = piece } }
    {
        CalmSource {
            bytes,
            at: 0,
            piece,
        }
    }
}

impl Source for CalmSource {
    ghost remaining = { λ s. Some s.bytes };

    ghost faults = { λ _. 0 };

    #[tactic(auto, using(crate::proofs::Streams::read_consumes))]
    fn read(&mut self, buf: &mut [u8]) -> Result<usize, IoFault>
        ensures bound { ReadsAtMost result buf.new }
        ensures bytes { ReadConsumes (Some self.old.bytes) (Some self.new.bytes) result buf.new }
        ensures cause { CausedBy 0 0 (is_failed result) }
        ensures count { IsOkAnd result (λ n. n ≡ min (min (length self.old.bytes) self.old.piece) (length buf.old)) }
        ensures piece { self.new.piece ≡ self.old.piece }
    {
        let (_, rest) = self.bytes.as_slice().split_at(self.at);
        let count = copy_front(rest, self.piece, buf);
        self.at += count;
        Ok(count)
    }
}

/// Memory that is written in pieces. It never fails.
#[derive(Debug, Drop)]
pub struct CalmSink {
    bytes: Vec<u8>,
    piece: usize,
}

impl Model for CalmSink {
    ghost use Rattle.std.specs.Prelude.{◌≤◌};
    ghost use Rattle.cv_io.specs.Memory.{Pieces};

    ghost Value = { Pieces };

    ghost view = { λ s. record { bytes = s.bytes.items; piece = s.piece } };

    ghost invariant = { λ s. 1 ≤ s.piece };
}

impl CalmSink {
    /// An empty one. The allocator is for what will be written; none is taken yet.
    pub fn new(alloc: Global, piece: usize) -> CalmSink
        requires { 1 ≤ piece }
        ensures { result ≡ record { bytes = []; piece = piece } }
    {
        CalmSink {
            bytes: Vec::new(alloc),
            piece,
        }
    }

    /// What was written.
    pub fn bytes(&self) -> &[u8]
        ensures { result.now ≡ self.now.bytes }
    {
        self.bytes.as_slice()
    }
}

impl Sink for CalmSink {
    ghost contents = { λ s. Some s.bytes };

    ghost faults = { λ _. 0 };

    #[tactic(auto, using(crate::proofs::Streams::prefix_kept))]
    fn write(&mut self, bytes: &[u8]) -> Result<usize, IoFault>
        ensures bound { IfOk result (λ n. n ≤ length bytes.now) }
        ensures progress { IfOk result (λ n. 0 < length bytes.now → 0 < n) }
        ensures bytes { WritesFront (Some self.old.bytes) (Some self.new.bytes) result bytes.now }
        ensures kept { OnErr result (self.new.bytes ≡ self.old.bytes) }
        ensures never { is_failed result ≡ false }
        ensures cause { CausedBy 0 0 (is_failed result) }
        ensures count { IfOk result (λ n. n ≡ min (length bytes.now) self.old.piece) }
        ensures piece { self.new.piece ≡ self.old.piece }
    {
        let count = bytes.len().min(self.piece);
        let (front, _) = bytes.split_at(count);
        match self.bytes.extend_from_slice(front) {
            Ok(()) => Ok(count),
            Err(_) => Err(IoFault::NoMemory),
        }
    }
}
