ghost use Rattle.std.specs.Prelude.{◌≡◌, ◌≤◌, ◌<◌, IfErr, IfOk, length};
ghost use Rattle.std.specs.Io.{ReadsAtMost, WritesAtMost};
ghost use Rattle.std.specs.Io.KnownBytes.{Keeps, ReadConsumes, WriteAppends};
ghost use Rattle.cv_seq.specs.Cause.{CausedBy};
ghost use Rattle.cv_io.specs.Fault.{is_failed};
ghost use Rattle.cv_io.specs.Standard.{IsNoInterrupt, IsNoted};
ghost use Rattle.cv_io.specs.Writes.{WritesFront};

use crate::counted::Counted;
use crate::fault::IoFault;
use crate::signal::{MOST_TRIES, is_interrupted, too_many_signals};
use crate::sink::Sink;
use crate::source::Source;
use std::io::{self, ErrorKind, Read, Write};

/// Reads from a reader of std, as standard input. The remaining bytes are those that the reader's contract knows: of
/// standard input none are known. It counts each error, and keeps the last one. A read that a signal interrupts is made again.
#[derive(Drop)]
pub struct StdSource<R>(Counted<R>);

/// Writes to a writer of std, as standard output, and flushes after each write. The contents are those that the
/// writer's contract knows: of standard output none are known. It counts each error and each write that takes
/// nothing, and keeps the last error. A write whose flush failed is a failure, though its bytes may have been written. A write
/// or a flush that a signal interrupts is made again.
#[derive(Drop)]
pub struct StdSink<W>(Counted<W>);

impl<R: Read + Drop> StdSource<R> {
    /// A source that has not failed yet.
    pub fn new(reader: R) -> StdSource<R>
        ensures faults { ⟦<StdSource<R> as Source>⟧.faults result ≡ 0 }
        ensures remaining { ⟦<StdSource<R> as Source>⟧.remaining result ≡ R.remaining reader }
    {
        StdSource(Counted::new(reader))
    }

    /// Why the last read that failed did so, as the system says. It is meant for people.
    pub fn last_error(&self) -> Option<io::Error>
        ensures { result ≡ self.now.0.last_error }
    {
        self.0.last_error
    }
}

impl<W: Write + Drop> StdSink<W> {
    /// A sink that has not failed yet.
    pub fn new(writer: W) -> StdSink<W>
        ensures faults { ⟦<StdSink<W> as Sink>⟧.faults result ≡ 0 }
        ensures contents { ⟦<StdSink<W> as Sink>⟧.contents result ≡ W.contents writer }
    {
        StdSink(Counted::new(writer))
    }

    /// Why the last write that failed did so, as the system says. It is meant for people.
    pub fn last_error(&self) -> Option<io::Error>
        ensures { result ≡ self.now.0.last_error }
    {
        self.0.last_error
    }
}

impl<R: Read + Drop> Source for StdSource<R> {
    ghost remaining = { λ s. R.remaining s.0.stream };

    ghost faults = { λ s. s.0.faults };

    #[tactic(auto, using(crate::proofs::Blames::blames_or_not))]
    fn read(&mut self, buf: &mut [u8]) -> Result<usize, IoFault>
        ensures bound { ReadsAtMost result buf.new }
        ensures bytes { ReadConsumes (R.remaining self.old.0.stream) (R.remaining self.new.0.stream) result buf.new }
        ensures cause { CausedBy self.old.0.faults self.new.0.faults (is_failed result) }
        ensures noted { IsNoted self.old.0 self.new.0 result }
    {
        match read_again(&mut self.0.stream, buf) {
            Ok(count) => Ok(count),
            Err(error) => Err(self.0.note(error)),
        }
    }
}

impl<W: Write + Drop> Sink for StdSink<W> {
    ghost contents = { λ s. W.contents s.0.stream };

    ghost faults = { λ s. s.0.faults };

    #[tactic(auto, using(crate::proofs::Blames::blames_or_not))]
    fn write(&mut self, bytes: &[u8]) -> Result<usize, IoFault>
        ensures bound { IfOk result (λ n. n ≤ length bytes.now) }
        ensures progress { IfOk result (λ n. 0 < length bytes.now → 0 < n) }
        ensures bytes { WritesFront (W.contents self.old.0.stream) (W.contents self.new.0.stream) result bytes.now }
        ensures cause { CausedBy self.old.0.faults self.new.0.faults (is_failed result) }
        ensures noted { IsNoted self.old.0 self.new.0 result }
    {
        match write_through(&mut self.0.stream, bytes) {
            Ok(count) => Ok(count),
            Err(error) => Err(self.0.note(error)),
        }
    }
}

/// One write with its flush. It is an error if nothing of a piece was taken.
#[tactic(auto, using(crate::proofs::Streams::prefix_kept, crate::proofs::Streams::prefix_appended, crate::proofs::Streams::appends_then_keeps))]
fn write_through<W: Write>(writer: &mut W, bytes: &[u8]) -> io::Result<usize>
    ensures bound { IfOk result (λ n. n ≤ length bytes.now) }
    ensures progress { IfOk result (λ n. 0 < length bytes.now → 0 < n) }
    ensures bytes { WritesFront (W.contents writer.old) (W.contents writer.new) result bytes.now }
    ensures no_interrupt { IfErr result IsNoInterrupt }
{
    let count = write_again(writer, bytes)?;
    flush_again(writer)?;
    if count > 0 || bytes.is_empty() {
        Ok(count)
    } else {
        Err(io::Error::from(ErrorKind::WriteZero))
    }
}

/// One read, made again while signals interrupt it.
#[tactic(auto, using(crate::proofs::Streams::read_after))]
fn read_again<R: Read>(reader: &mut R, buf: &mut [u8]) -> io::Result<usize>
    ensures bound { ReadsAtMost result buf.new }
    ensures bytes { ReadConsumes (R.remaining reader.old) (R.remaining reader.new) result buf.new }
    ensures no_interrupt { IfErr result IsNoInterrupt }
{
    for _ in 0..MOST_TRIES {
        let answer = reader.read(buf);
        if !is_interrupted(&answer) {
            return answer;
        }
    }
    Err(too_many_signals())
}

/// One write, made again while signals interrupt it.
#[tactic(auto, using(crate::proofs::Streams::write_after))]
fn write_again<W: Write>(writer: &mut W, bytes: &[u8]) -> io::Result<usize>
    ensures bound { WritesAtMost result bytes.now }
    ensures bytes { WriteAppends (W.contents writer.old) (W.contents writer.new) result bytes.now }
    ensures no_interrupt { IfErr result IsNoInterrupt }
{
    for _ in 0..MOST_TRIES {
        let answer = writer.write(bytes);
        if !is_interrupted(&answer) {
            return answer;
        }
    }
    Err(too_many_signals())
}

/// One flush, made again while signals interrupt it.
#[tactic(auto, using(crate::proofs::Streams::keeps_after))]
fn flush_again<W: Write>(writer: &mut W) -> io::Result<()>
    ensures bytes { Keeps (W.contents writer.old) (W.contents writer.new) }
    ensures no_interrupt { IfErr result IsNoInterrupt }
{
    for _ in 0..MOST_TRIES {
        let answer = writer.flush();
        if !is_interrupted(&answer) {
            return answer;
        }
    }
    Err(too_many_signals())
}
