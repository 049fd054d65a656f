ghost use Rattle.std.specs.Prelude.{◌≡◌, ◌≤◌, ◌<◌, [], Some, length, min, IfOk, OnErr};
ghost use Rattle.std.specs.Io.{ReadsAtMost};
ghost use Rattle.std.specs.Io.KnownBytes.{ReadConsumes};
ghost use Rattle.cv_seq.specs.Cause.{CausedBy, is_to_fail, next_count};
ghost use Rattle.cv_io.specs.Fault.{is_failed};
ghost use Rattle.cv_io.specs.Memory.{faults_after};
ghost use Rattle.cv_io.specs.Writes.{WritesFront};

use crate::calm::{CalmSink, CalmSource};
use crate::failures::Failures;
use crate::fault::IoFault;
use crate::sink::Sink;
use crate::source::Source;
use cv_seq::Seq;
use std::alloc::Global;
use std::marker::Model;

/// Bytes in memory, which are read in pieces. Some calls fail, numbered from 1, and take nothing.
#[derive(Debug, Drop)]
pub struct MemSource {
    source: CalmSource,
    failures: Failures,
}

impl Model for MemSource {
    ghost use Rattle.cv_io.specs.Memory.{Supply};

    ghost Value = { Supply };

    ghost view = { λ s. record {
      remaining = s.source.bytes;
      piece = s.source.piece;
      fails = s.failures.fails;
      calls = s.failures.calls;
      faults = s.failures.faults;
    } };
}

impl MemSource {
    /// All the bytes remain. It takes no memory.
    pub fn new(bytes: Seq<u8>, piece: usize, fails: Seq<u64>) -> MemSource
        requires { 1 ≤ piece }
        ensures { result ≡ record { remaining = bytes; piece = piece; fails = fails; calls = 0; faults = 0 } }
    {
        MemSource {
            source: CalmSource::new(bytes, piece),
            failures: Failures::new(fails),
        }
    }
}

impl Source for MemSource {
    ghost remaining = { λ s. Some s.remaining };

    ghost faults = { λ s. s.faults };

    fn read(&mut self, buf: &mut [u8]) -> Result<usize, IoFault>
        ensures bound { ReadsAtMost result buf.new }
        ensures bytes { ReadConsumes (Some self.old.remaining) (Some self.new.remaining) result buf.new }
        ensures cause { CausedBy self.old.faults self.new.faults (is_failed result) }
        ensures count { IfOk result (λ n. n ≡ min (min (length self.old.remaining) self.old.piece) (length buf.old)) }
        ensures call { self.new.calls ≡ next_count self.old.calls }
        ensures failed { is_failed result ≡ is_to_fail self.old.fails (next_count self.old.calls) }
        ensures faults { self.new.faults ≡ faults_after (is_to_fail self.old.fails (next_count self.old.calls)) self.old.faults }
        ensures piece { self.new.piece ≡ self.old.piece }
        ensures fails { self.new.fails ≡ self.old.fails }
    {
        self.failures.call()?;
        self.source.read(buf)
    }
}

/// Memory that is written in pieces. Some calls fail, numbered from 1, and append nothing.
#[derive(Debug, Drop)]
pub struct MemSink {
    sink: CalmSink,
    failures: Failures,
}

impl Model for MemSink {
    ghost use Rattle.cv_io.specs.Memory.{Store};

    ghost Value = { Store };

    ghost view = { λ s. record {
      contents = s.sink.bytes;
      piece = s.sink.piece;
      fails = s.failures.fails;
      calls = s.failures.calls;
      faults = s.failures.faults;
    } };
}

impl MemSink {
    /// An empty one. The allocator is for what will be written; none is taken yet.
    pub fn new(alloc: Global, piece: usize, fails: Seq<u64>) -> MemSink
        requires { 1 ≤ piece }
        ensures { result ≡ record { contents = []; piece = piece; fails = fails; calls = 0; faults = 0 } }
    {
        MemSink {
            sink: CalmSink::new(alloc, piece),
            failures: Failures::new(fails),
        }
    }

    /// What was written.
    pub fn bytes(&self) -> &[u8]
        ensures { result.now ≡ self.now.contents }
    {
        self.sink.bytes()
    }
}

impl Sink for MemSink {
    ghost contents = { λ s. Some s.contents };

    ghost faults = { λ s. s.faults };

    fn write(&mut self, bytes: &[u8]) -> Result<usize, IoFault>
        ensures bound { IfOk result (λ n. n ≤ length bytes.now) }
        ensures progress { IfOk result (λ n. 0 < length bytes.now → 0 < n) }
        ensures bytes { WritesFront (Some self.old.contents) (Some self.new.contents) result bytes.now }
        ensures kept { OnErr result (self.new.contents ≡ self.old.contents) }
        ensures cause { CausedBy self.old.faults self.new.faults (is_failed result) }
        ensures count { IfOk result (λ n. n ≡ min (length bytes.now) self.old.piece) }
        ensures call { self.new.calls ≡ next_count self.old.calls }
        ensures failed { is_failed result ≡ is_to_fail self.old.fails (next_count self.old.calls) }
        ensures faults { self.new.faults ≡ faults_after (is_to_fail self.old.fails (next_count self.old.calls)) self.old.faults }
        ensures piece { self.new.piece ≡ self.old.piece }
        ensures fails { self.new.fails ≡ self.old.fails }
    {
        self.failures.call()?;
        self.sink.write(bytes)
    }
}
