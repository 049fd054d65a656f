ghost use Rattle.std.specs.Prelude.{◌≤◌, IfOk};

use cv_io::{IoFault, Sink, Source, StdSink, StdSource};
use std::io::{self, ErrorKind, Read, Write};

/// A stream of which each call has the same answer.
#[derive(Drop)]
struct Scripted {
    moved: Result<usize, ErrorKind>,
    flushed: Result<(), ErrorKind>,
}

impl Scripted {
    fn moved(&self, room: usize) -> io::Result<usize>
        ensures { IfOk result (λ n. n ≤ room) }
    {
        match self.moved {
            Ok(count) => Ok(count.min(room)),
            Err(kind) => Err(io::Error::from(kind)),
        }
    }
}

impl Read for Scripted {
    fn read(&mut self, buf: &mut [u8]) -> io::Result<usize> {
        self.moved(buf.len())
    }
}

impl Write for Scripted {
    fn write(&mut self, buf: &[u8]) -> io::Result<usize> {
        self.moved(buf.len())
    }

    fn flush(&mut self) -> io::Result<()> {
        match self.flushed {
            Ok(()) => Ok(()),
            Err(kind) => Err(io::Error::from(kind)),
        }
    }
}

fn kind(error: Option<io::Error>) -> Option<ErrorKind> {
    match error {
        Some(error) => Some(error.kind()),
        None => None,
    }
}

#[test]
fn a_fault_of_a_standard_stream_is_kept(rt: HostRuntime) {
    let failed = Err(IoFault::Failed);
    let broken = ErrorKind::BrokenPipe;
    let full = ErrorKind::StorageFull;
    let mut buf = [0u8; 4];
    for (moved, want, error) in [
        (Ok(3), Ok(3), None),
        (Ok(0), Ok(0), None),
        (Err(broken), failed, Some(broken)),
    ] {
        let mut source = StdSource::new(Scripted {
            moved,
            flushed: Ok(()),
        });
        assert_eq!(rt; source.read(&mut buf), want);
        assert_eq!(rt; kind(source.last_error()), error);
    }
    for (moved, flushed, want, error) in [
        (Ok(3), Ok(()), Ok(3), None),
        (Ok(0), Ok(()), failed, Some(ErrorKind::WriteZero)),
        (Err(broken), Ok(()), failed, Some(broken)),
        (Ok(3), Err(full), failed, Some(full)),
    ] {
        let mut sink = StdSink::new(Scripted { moved, flushed });
        assert_eq!(rt; sink.write(b"abcd"), want);
        assert_eq!(rt; kind(sink.last_error()), error);
    }
}
