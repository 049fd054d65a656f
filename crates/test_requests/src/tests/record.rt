use cv_base::{RangeKind, Turn};
use cv_osv::{AdvisoryError, RecordWhat, read_advisory};
use serde_json::Value;
use std::alloc::Global;
use std::test::Fail;

/// Why a record of this JSON text is refused, if it is.
fn fault_in(alloc: Global, json: &str) -> Result<Option<RecordWhat>, Fail> {
    let value = Value::from_str(alloc, json)?;
    match read_advisory(alloc, &value) {
        Ok(_) => Ok(None),
        Err(AdvisoryError::Bad(what)) => Ok(Some(what)),
        Err(AdvisoryError::NoMemory) => Err(Fail::from(AdvisoryError::NoMemory)),
    }
}

#[test]
fn the_first_fault_of_a_record_is_the_answer(rt: HostRuntime) -> Result<(), Fail> {
    for (json, want) in [
        ("[]", RecordWhat::NotObject),
        ("{\"id\":\"\",\"modified\":7}", RecordWhat::NoId),
        ("{\"id\":\"X\",\"modified\":null}", RecordWhat::NoModified),
        (
            "{\"id\":\"X\",\"modified\":\"m\",\"withdrawn\":7,\"affected\":7}",
            RecordWhat::BadWithdrawn,
        ),
        (
            "{\"id\":\"X\",\"modified\":\"m\",\"affected\":{}}",
            RecordWhat::BadAffected,
        ),
        (
            "{\"id\":\"X\",\"modified\":\"m\",\"affected\":[{},[],{\"package\":7}]}",
            RecordWhat::BadEntry,
        ),
        (
            "{\"id\":\"X\",\"modified\":\"m\",\"affected\":[{\"versions\":7,\"ranges\":7,\"package\":{\"name\":\"x\"}},7]}",
            RecordWhat::BadPackage,
        ),
        (
            "{\"id\":\"X\",\"modified\":\"m\",\"affected\":[{\"versions\":7,\"ranges\":[{\"events\":[7]}]}]}",
            RecordWhat::BadRange,
        ),
        (
            "{\"id\":\"X\",\"modified\":\"m\",\"affected\":[{\"versions\":7,\"ranges\":[{\"type\":\"GIT\",\"events\":[{\"fixed\":1}]},7]}]}",
            RecordWhat::BadEvent,
        ),
        (
            "{\"id\":\"X\",\"modified\":\"m\",\"affected\":[{\"versions\":[\"1\",null]},7]}",
            RecordWhat::BadVersions,
        ),
    ] {
        assert_eq!(rt; fault_in(rt.alloc(), json)?, Some(want), "{json}");
    }
    Ok(())
}

#[test]
fn a_record_is_read(rt: HostRuntime) -> Result<(), Fail> {
    let alloc = rt.alloc();
    let json =
        "{\"schema_version\":\"1.6.0\",\"id\":\"X-1\",\"modified\":\"m\",\"withdrawn\":\"\",\"affected\":[{\"package\":{\"ecosystem\":\"Debian:12\",\"name\":\"openssl\"},\"ranges\":[{\"type\":\"SEMVER\",\"events\":[{\"limit\":\"4\",\"introduced\":\"0\",\"fixed\":null},{}]}],\"versions\":[\"1\",\"\"]},{\"package\":null}]}";
    let value = Value::from_str(alloc, json)?;
    let advisory = read_advisory(alloc, &value)?;
    assert_eq!(rt; advisory.id.as_str(), "X-1");
    assert!(rt; advisory.withdrawn);
    let [entry, bare] = advisory.affected.as_slice() else {
        return Err(Fail::from("there are two entries"));
    };
    assert!(rt; bare.package.is_none());
    assert_eq!(rt; entry.versions.as_slice().len(), 2);
    let [range] = entry.ranges.as_slice() else {
        return Err(Fail::from("there is one range"));
    };
    assert_eq!(rt; range.kind, RangeKind::Semver);
    let [Turn::Introduced(first), Turn::Limit(last)] = range.turns.as_slice() else {
        return Err(Fail::from("a turn for each member that is not null"));
    };
    assert_eq!(rt; first.as_str(), "0");
    assert_eq!(rt; last.as_str(), "4");
    Ok(())
}
