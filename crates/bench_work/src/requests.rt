use crate::formats::count_of;
use cv_base::NoMemory;
use cv_io::{Line, LineError, LineReader, Source, StdSource};
use cv_osv_text::read_request;
use cv_scan_input::{MAX_INPUT, MAX_LINE};
use std::alloc::Global;
use std::io::Read;

/// How many lines of a stream are requests. A stream that cannot be read has none.
pub fn requests_in<R: Read + Drop>(alloc: Global, stream: R) -> Result<u64, NoMemory> {
    count_of(count_requests(alloc, &mut StdSource::new(stream)))
}

fn count_requests<S: Source>(alloc: Global, input: &mut S) -> Result<u64, LineError> {
    let mut reader = LineReader::new(alloc, MAX_LINE, MAX_INPUT)?;
    let mut count: u64 = 0;
    while let Line::Text(line) = reader.next(alloc, input)? {
        if is_request(alloc, line.as_slice()) {
            count = count.saturating_add(1);
        }
    }
    Ok(count)
}

/// Whether a line is read as a request, which is then dropped.
fn is_request(alloc: Global, line: &[u8]) -> bool {
    read_request(alloc, line).is_ok()
}
