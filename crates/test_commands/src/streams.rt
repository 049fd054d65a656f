use crate::texts::expand;
use cv_base::{NoMemory, Seq};
use cv_command::Status;
use cv_io::{MemSink, MemSource};
use std::alloc::Global;

/// The line for arguments that are not a command.
pub const USAGE: &str = "usage: cvwatch serve|scan|order|drill|sbom|scan-list|keep|push\n";

/// How the streams and the desk behave: how many bytes are written at once, at most, and which calls fail, numbered from 1.
#[derive(Clone, Copy, Debug)]
pub struct Outside {
    pub piece: usize,
    pub reads: &'static [u64],
    pub writes: &'static [u64],
    pub desk: &'static [u64],
}

/// Nothing fails.
pub const CALM: Outside = Outside {
    piece: 100,
    reads: &[],
    writes: &[],
    desk: &[],
};

/// The first read fails, and a write is of at most five bytes.
pub const UNREAD: Outside = Outside {
    piece: 5,
    reads: &[1],
    writes: &[],
    desk: &[],
};

/// A command in which a call of a stream or of the desk fails: its input, what fails, how it ends, and what it prints.
pub struct Failure {
    pub input: &'static str,
    pub outside: Outside,
    pub status: Status,
    pub output: &'static str,
}

/// A source of this text, in which names in brackets stand for texts.
pub fn source_of(alloc: Global, input: &str, outside: &Outside) -> Result<MemSource, NoMemory> {
    let bytes = Seq::of(expand(alloc, input)?.into_bytes());
    Ok(MemSource::new(bytes, 100, listed(alloc, outside.reads)?))
}

/// A sink that holds nothing yet.
pub fn sink_of(alloc: Global, outside: &Outside) -> Result<MemSink, NoMemory> {
    Ok(MemSink::new(alloc, outside.piece.max(1), listed(alloc, outside.writes)?))
}

/// The numbers of the calls that fail.
pub fn listed(alloc: Global, numbers: &[u64]) -> Result<Seq<u64>, NoMemory> {
    Ok(Seq::of(numbers.to_vec(alloc)?))
}

/// Arguments of a command.
pub fn arguments_of(alloc: Global, texts: &[&str]) -> Result<Vec<String>, NoMemory> {
    let mut arguments = Vec::new(alloc);
    for text in texts {
        arguments.push(String::from_str(alloc, *text)?)?;
    }
    Ok(arguments)
}
