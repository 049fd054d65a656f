use crate::formats::lines::count_of;
use cv_base::NoMemory;
use cv_io::{Line, LineError, LineReader, Source, StdSource};
use cv_scan_input::{MAX_INPUT, MAX_LINE};
use serde_json::Value;
use std::alloc::Global;
use std::io::Read;

/// Reads each line of a stream as a JSON value, drops it, and counts the lines that are one. A stream that cannot be read has
/// none.
pub fn values_in<R: Read + Drop>(alloc: Global, stream: R) -> Result<u64, NoMemory> {
    count_of(count_values(alloc, &mut StdSource::new(stream)))
}

fn count_values<S: Source>(alloc: Global, input: &mut S) -> Result<u64, LineError> {
    let mut reader = LineReader::new(alloc, MAX_LINE, MAX_INPUT)?;
    let mut count: u64 = 0;
    while let Line::Text(line) = reader.next(alloc, input)? {
        if is_value(alloc, line.as_slice()) {
            count = count.saturating_add(1);
        }
    }
    Ok(count)
}

fn is_value(alloc: Global, line: &[u8]) -> bool {
    match str::from_utf8(line) {
        Ok(text) => Value::from_str(alloc, text).is_ok(),
        Err(_) => false,
    }
}
