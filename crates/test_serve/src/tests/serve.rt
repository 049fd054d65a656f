ghost use Rattle.std.specs.Prelude.{None};

use crate::tests::memory::tells_no_memory;
use cv_base::{Digest, NoMemory, Seq};
use cv_desk::{Table, TableDesk, TableEntry};
use cv_desk_wrappers::GateDesk;
use cv_io::{MemSink, MemSource};
use cv_serve::{ServeEnd, serve};
use std::alloc::Global;
use std::sync::Wait;
use std::test::Fail;
use std::thread::Threads;

/// An image of two layers.
const TWO_LAYERS: &str =
    r#"{"do":"register","manifest":{"hash":"sha256:1111111111111111111111111111111111111111111111111111111111111111","layers":[{"hash":"sha256:aaaaaaaaaaaaaaaaaaaaaaaaaaaaaaaaaaaaaaaaaaaaaaaaaaaaaaaaaaaaaaaa"},{"hash":"sha256:bbbbbbbbbbbbbbbbbbbbbbbbbbbbbbbbbbbbbbbbbbbbbbbbbbbbbbbbbbbbbbbb"}]}}"#;

/// An image of three layers.
const THREE_LAYERS: &str =
    r#"{"do":"register","manifest":{"hash":"sha256:1111111111111111111111111111111111111111111111111111111111111111","layers":[{"hash":"sha256:aaaaaaaaaaaaaaaaaaaaaaaaaaaaaaaaaaaaaaaaaaaaaaaaaaaaaaaaaaaaaaaa"},{"hash":"sha256:bbbbbbbbbbbbbbbbbbbbbbbbbbbbbbbbbbbbbbbbbbbbbbbbbbbbbbbbbbbbbbbb"},{"hash":"sha256:cccccccccccccccccccccccccccccccccccccccccccccccccccccccccccccccc"}]}}"#;

/// A store that has no layer.
struct NoLayer;

impl Table for NoLayer {
    ghost rows = { λ digest. None };

    fn layer(_digest: &Digest) -> Option<&'static [TableEntry]> {
        None
    }
}

/// How two workers index the layers of an image: at once if, while a listing of the first or of the second worker goes on, as many listings
/// have begun as its goal says.
fn listed<W: Threads + Wait + Sync>(
    rt: &W,
    alloc: Global,
    input: &str,
    first_goal: u64,
    second_goal: u64,
) -> Result<&'static str, Fail> {
    let first = TableDesk::<NoLayer>::new();
    let second = TableDesk::<NoLayer>::new();
    let (first, second) = GateDesk::pair(alloc, first, second, first_goal, second_goal)?;
    let mut desks = vec![in alloc; first, second]?;
    let bytes = Seq::of(input.as_bytes().to_vec(alloc)?);
    let mut source = MemSource::new(bytes, 100, Seq::of(Vec::new(alloc)));
    let mut sink = MemSink::new(alloc, 100, Seq::of(Vec::new(alloc)));
    let end = serve(rt, alloc, &mut source, &mut sink, &mut desks, 2);
    if end != ServeEnd::Done {
        return Err(Fail::from(end));
    }
    if desks.iter().all(GateDesk::passed) {
        return Ok("at once");
    }
    if tells_no_memory(sink.bytes()) {
        return Err(Fail::from(NoMemory));
    }
    Ok("in turn, as without memory for a thread")
}

#[test]
fn workers_list_layers_at_once_and_take_those_of_a_busy_one(rt: HostRuntime) -> Result<(), Fail> {
    // the last two rows: layers are not divided beforehand
    for (image, first, second) in [
        (TWO_LAYERS, 2, 2),
        (THREE_LAYERS, 3, 2),
        (THREE_LAYERS, 2, 3),
    ] {
        assert_eq!(rt;
            listed(&rt, rt.alloc(), image, first, second)?,
            "at once",
            "{first} {second}"
        );
    }
    Ok(())
}
