use std::str;

/// Whether a line of a transcript says that memory ran out.
pub fn tells_no_memory(written: &[u8]) -> bool {
    str::from_utf8(written).unwrap_or("").contains("memory\"")
}
