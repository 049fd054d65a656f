use cv_base::Turn;
use cv_osv::{AdvisoryError, RecordRead, read_advisory};
use cv_osv_text::RecordReader;
use cv_request::{RequestError, read_json};
use std::alloc::Global;
use std::test::Fail;

/// What a line is read as by a value that owns its texts.
fn owned(alloc: Global, line: &str) -> Result<RecordRead, Fail> {
    let value = read_json(alloc, line.as_bytes())?;
    match read_advisory(alloc, &value) {
        Ok(record) => Ok(Ok(record)),
        Err(AdvisoryError::Bad(what)) => Ok(Err(what)),
        Err(AdvisoryError::NoMemory) => Err(Fail::from(AdvisoryError::NoMemory)),
    }
}

const ENTRY: &str =
    "{\"package\":{\"ecosystem\":\"Debian:12\",\"name\":\"openssl\",\"purl\":\"pkg:deb/debian/openssl\"},\"ranges\":[{\"type\":\"ECOSYSTEM\",\"events\":[{\"introduced\":\"0\"},{\"fixed\":\"3.0.11-1\"}]}],\"versions\":[\"3.0.9-1\",\"3.0.9-1\",\"3.0.10-1\"]}";

#[test]
fn a_line_is_read_as_its_value_is(rt: HostRuntime) -> Result<(), Fail> {
    let alloc = rt.alloc();
    let mut reader = RecordReader::new(alloc)?;
    let full = format!(in alloc;
        "{{\"id\":\"X-1\",\"modified\":\"m\",\"affected\":[{ENTRY},{ENTRY}]}}"
    )?;
    let scored = format!(in alloc;
        "{{\"id\":\"X-1\",\"modified\":\"m\",\"severity\":[9.8,-1e3],\"affected\":[{ENTRY}]}}"
    )?;
    let lines = [
        full.as_str(),
        scored.as_str(),
        "{\"id\":\"first\",\"modified\":\"m\",\"id\":\"X-\\u0031\\ud83d\\ude00\",\"withdrawn\":null}",
        "{\"id\":\"X-1\",\"modified\":\"m\",\"affected\":[{\"package\":null,\"ranges\":[],\"versions\":null}]}",
        "{\"id\":\"\",\"modified\":7}",
        "{\"id\":\"X-1\",\"modified\":\"m\",\"affected\":[{\"versions\":[\"1\",2]}]}",
        "[]",
        "null",
    ];
    for line in lines {
        assert_eq!(rt;
            reader.read(alloc, line.as_bytes())?,
            owned(alloc, line)?,
            "{line}"
        );
    }
    Ok(())
}

#[test]
fn the_parts_of_a_record_are_read(rt: HostRuntime) -> Result<(), Fail> {
    let alloc = rt.alloc();
    let mut reader = RecordReader::new(alloc)?;
    let line = format!(in alloc; "{{\"id\":\"X-1\",\"modified\":\"m\",\"affected\":[{ENTRY}]}}")?;
    let Ok(record) = reader.read(alloc, line.as_bytes())? else {
        return Err(Fail::from("the record is well formed"));
    };
    let [entry] = record.affected.as_slice() else {
        return Err(Fail::from("there is one entry"));
    };
    let [range] = entry.ranges.as_slice() else {
        return Err(Fail::from("there is one range"));
    };
    let [_, version, _] = entry.versions.as_slice() else {
        return Err(Fail::from("there are three versions"));
    };
    let [_, turn] = range.turns.as_slice() else {
        return Err(Fail::from("there are two turns"));
    };
    assert_eq!(rt; version.as_str(), "3.0.9-1");
    assert!(rt; matches!(turn, Turn::Fixed(at) if at.as_str() == "3.0.11-1"));
    Ok(())
}

#[test]
fn a_line_that_is_not_json_is_refused(rt: HostRuntime) -> Result<(), Fail> {
    let alloc = rt.alloc();
    let mut reader = RecordReader::new(alloc)?;
    let lines: [&[u8]; 6] = [
        b"",
        b"{\"id\":\"X-1\"",
        b"{\"id\":\"X-1\"} {}",
        b"{\"id\":\"X-1\",}",
        b"{\"id\":\"\xff\"}",
        b"{\"id\":\"X-1\",\"modified\":\"m\",\"score\":1e999}",
    ];
    for line in lines {
        assert_eq!(rt; reader.read(alloc, line), Err(RequestError::BadJson));
    }
    Ok(())
}

#[test]
fn many_texts_are_kept_apart(rt: HostRuntime) -> Result<(), Fail> {
    let alloc = rt.alloc();
    let mut reader = RecordReader::new(alloc)?;
    for round in 0..3u32 {
        for index in 0..700u32 {
            let line = format!(in alloc;
                "{{\"id\":\"X-{index}\",\"modified\":\"m\",\"affected\":[{{\"versions\":[\"{index}\",\"{round}.{index}\"]}}]}}"
            )?;
            assert_eq!(rt;
                reader.read(alloc, line.as_bytes())?,
                owned(alloc, line.as_str())?
            );
        }
    }
    Ok(())
}
