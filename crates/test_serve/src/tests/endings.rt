ghost use Rattle.std.specs.Prelude.{None};

use crate::tests::memory::tells_no_memory;
use cv_base::{Digest, NoMemory, Seq};
use cv_desk::{Table, TableDesk, TableEntry};
use cv_io::{CalmSink, CalmSource, IoFault, Sink, Source};
use cv_serve::{ServeEnd, serve};
use std::alloc::Global;
use std::sync::Wait;
use std::test::Fail;
use std::thread::Threads;

/// Two rounds of one request each. The second one has begun where the text ends.
const TWO_ROUNDS: &str = "{\"do\":\"list\"}\n\n{\"do\":\"list\"}\n";

/// What the first round writes.
const FIRST_ROUND: &str =
    "{\"at\":0,\"lane\":0,\"line\":1,\"notifications\":[],\"read\":\"list\",\"reply\":\"list\"}\n";

/// The first round of these two, and what ends it.
const ONE_ROUND: &str = "{\"do\":\"list\"}\n\n";

/// How many answers an input has that is this round and then lines of 65,535 bytes, 2^36 bytes in all. Of these 1,048,576 lines 2,048 are a
/// round, since one more would bring it past its limit, and the last round has not ended.
const ANSWERS: usize = 1 + 511 * 2048;

/// The last of these answers.
const LAST_ANSWER: &str = "\n{\"line\":1046530,\"refused\":\"bad_json\"}\n";

/// What comes after a text: letters without end; lines without end, each as long as a read, whose first byte shows that they are no UTF-8;
/// or no memory for any read.
#[derive(Clone, Copy)]
enum Then {
    Letters,
    Lines,
    NoMemory,
}

/// A text, and then that.
#[derive(Drop)]
struct TextThen {
    text: CalmSource,
    then: Then,
}

impl Source for TextThen {
    ghost remaining = { λ _. None };

    ghost faults = { λ _. 0 };

    fn read(&mut self, buf: &mut [u8]) -> Result<usize, IoFault> {
        let count = self.text.read(buf)?;
        if count > 0 {
            return Ok(count);
        }
        match self.then {
            Then::Letters => {
                buf.fill(b'a');
                Ok(buf.len())
            }
            Then::Lines => {
                buf.fill(0xff);
                if let Some(last) = buf.last_mut() {
                    *last = b'\n';
                }
                Ok(buf.len())
            }
            Then::NoMemory => Err(IoFault::NoMemory),
        }
    }
}

/// A sink with memory for this number of writes.
#[derive(Drop)]
struct Scarce {
    sink: CalmSink,
    writes: u32,
}

impl Sink for Scarce {
    ghost contents = { λ _. None };

    ghost faults = { λ _. 0 };

    fn write(&mut self, bytes: &[u8]) -> Result<usize, IoFault> {
        if self.writes == 0 {
            return Err(IoFault::NoMemory);
        }
        self.writes -= 1;
        self.sink.write(bytes)
    }
}

/// A store that has no layer.
struct NoLayer;

impl Table for NoLayer {
    ghost rows = { λ digest. None };

    fn layer(_digest: &Digest) -> Option<&'static [TableEntry]> {
        None
    }
}

/// Serves two rounds, and then what follows them, over a sink with memory for this number of writes. Whether the service ends so, and wrote
/// the first round alone; or that memory ran out elsewhere.
fn ends_after_a_round<W: Threads + Wait + Sync>(
    rt: &W,
    alloc: Global,
    then: Then,
    writes: u32,
    end: ServeEnd,
) -> Result<bool, Fail> {
    let text = Seq::of(TWO_ROUNDS.as_bytes().to_vec(alloc)?);
    let mut source = TextThen {
        text: CalmSource::new(text, 100),
        then,
    };
    let mut sink = Scarce {
        sink: CalmSink::new(alloc, 4096),
        writes,
    };
    let mut desks = vec![in alloc; TableDesk::<NoLayer>::new()]?;
    let ended = serve(rt, alloc, &mut source, &mut sink, &mut desks, 1);
    let written = sink.sink.bytes();
    let is_so = ended == end && written == FIRST_ROUND.as_bytes();
    if !is_so && (ended == ServeEnd::NoMemory || tells_no_memory(written)) {
        return Err(Fail::from(NoMemory));
    }
    Ok(is_so)
}

#[test]
fn a_round_that_has_begun_is_not_written(rt: HostRuntime) -> Result<(), Fail> {
    for (then, writes, end) in [
        (Then::Letters, 9, ServeEnd::LineTooLong),
        (Then::NoMemory, 9, ServeEnd::NoMemory),
        (Then::NoMemory, 1, ServeEnd::NoMemory),
    ] {
        assert!(rt;
            ends_after_a_round(&rt, rt.alloc(), then, writes, end)?,
            "{end:?}"
        );
    }
    Ok(())
}

#[test]
fn the_rounds_of_an_input_that_is_too_long_are_written(rt: HostRuntime) -> Result<(), Fail> {
    let text = Seq::of(ONE_ROUND.as_bytes().to_vec(rt.alloc())?);
    let mut source = TextThen {
        text: CalmSource::new(text, 100),
        then: Then::Lines,
    };
    let mut sink = CalmSink::new(rt.alloc(), 65_536);
    let mut desks = vec![in rt.alloc(); TableDesk::<NoLayer>::new()]?;
    let ended = serve(&rt, rt.alloc(), &mut source, &mut sink, &mut desks, 1);
    let written = sink.bytes();
    if ended == ServeEnd::NoMemory || tells_no_memory(written) {
        return Err(Fail::from(NoMemory));
    }
    let answers = written.iter().filter(|byte| **byte == b'\n').count();
    assert_eq!(rt; (ended, answers), (ServeEnd::InputTooLong, ANSWERS));
    assert!(rt; written.starts_with(FIRST_ROUND.as_bytes()));
    assert!(rt; written.ends_with(LAST_ANSWER.as_bytes()));
    Ok(())
}
