use cv_base::{NoMemory, ReadBad};
use cv_dpkg::{StatusRule, read_status};
use cv_osv::{OsvError, read_records};
use serde_json::Value;
use std::alloc::Global;
use std::io::Read;

/// The records of a JSON list of OSV records. A text that is refused has none.
pub fn records_in<R: Read + Drop>(alloc: Global, stream: R) -> Result<u64, NoMemory> {
    let bytes = read_whole(alloc, stream)?;
    match str::from_utf8(bytes.as_slice()) {
        Ok(text) => records_of(alloc, text),
        Err(_) => Ok(0),
    }
}

fn records_of(alloc: Global, text: &str) -> Result<u64, NoMemory> {
    match Value::from_str(alloc, text) {
        Ok(value) => listed(alloc, &value),
        Err(_) => Ok(0),
    }
}

fn listed(alloc: Global, value: &Value) -> Result<u64, NoMemory> {
    match read_records(alloc, value) {
        Ok(records) => Ok(records.as_slice().len() as u64),
        Err(OsvError::NoMemory) => Err(NoMemory),
        Err(_) => Ok(0),
    }
}

/// The packages of a dpkg status file. One that is refused has none.
pub fn packages_in<R: Read + Drop>(alloc: Global, stream: R) -> Result<u64, NoMemory> {
    let bytes = read_whole(alloc, stream)?;
    packages_of(alloc, bytes.as_slice())
}

fn packages_of(alloc: Global, bytes: &[u8]) -> Result<u64, NoMemory> {
    match read_status(alloc, bytes, StatusRule::Needed) {
        Ok(packages) => Ok(packages.as_slice().len() as u64),
        Err(ReadBad::Bad(_)) => Ok(0),
        Err(ReadBad::NoMemory) => Err(NoMemory),
    }
}

/// All bytes of a stream, or those before the first read that fails.
fn read_whole<R: Read + Drop>(alloc: Global, mut stream: R) -> Result<Vec<u8>, NoMemory> {
    let mut bytes = Vec::new(alloc);
    let _read = stream.read_to_end(&mut bytes);
    Ok(bytes)
}
