use crate::texts::expand;
use cv_base::NoMemory;
use cv_command::Status;
use cv_io::MemSink;
use std::alloc::Global;
use std::str;

/// Whether a run ended so and printed this text, in which names in brackets stand for texts; or that memory ran out in it.
pub fn is_ended(
    alloc: Global,
    ended: &(Status, MemSink),
    status: Status,
    text: &str,
) -> Result<bool, NoMemory> {
    let (found, sink) = ended;
    let rest = after(alloc, sink.bytes(), text)?;
    unless_out_of_memory(ended, *found == status && matches!(rest, Some([])))
}

/// Whether a run is as it should be, by what was found; or, if it is not, that it says that memory ran out in it.
pub fn unless_out_of_memory(ended: &(Status, MemSink), is_right: bool) -> Result<bool, NoMemory> {
    let (status, sink) = ended;
    if !is_right && (*status == Status::NoMemory || tells_no_memory(sink.bytes())) {
        return Err(NoMemory);
    }
    Ok(is_right)
}

/// Whether a line of a transcript says that memory ran out.
fn tells_no_memory(bytes: &[u8]) -> bool {
    str::from_utf8(bytes).unwrap_or("").contains("memory\"")
}

/// The bytes after that text which they begin with, if they begin with one.
pub fn after_one_of<'a>(
    alloc: Global,
    bytes: &'a [u8],
    texts: &[&str],
) -> Result<Option<&'a [u8]>, NoMemory> {
    for text in texts {
        if let Some(rest) = after(alloc, bytes, text)? {
            return Ok(Some(rest));
        }
    }
    Ok(None)
}

/// The bytes after a text in which names in brackets stand for texts, if they begin with it.
fn after<'a>(alloc: Global, bytes: &'a [u8], text: &str) -> Result<Option<&'a [u8]>, NoMemory> {
    let whole = expand(alloc, text)?;
    Ok(after_front(bytes, whole.as_str()))
}

fn after_front<'a>(bytes: &'a [u8], front: &str) -> Option<&'a [u8]> {
    bytes.strip_prefix(front.as_bytes())
}
