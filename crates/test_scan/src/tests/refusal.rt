use cv_base::NoMemory;
use cv_osv::RecordWhat;
use cv_request::{RequestError, RequestWhat};
use cv_scan_output::{no_manifest_line, refusal_line};
use std::test::Fail;

#[test]
fn each_refusal_has_its_line(rt: HostRuntime) -> Result<(), Fail> {
    for (error, want) in [
        (
            RequestError::BadJson,
            "{\"line\":2,\"refused\":\"bad_json\"}\n",
        ),
        (
            RequestError::BadRequest(RequestWhat::NoLayers),
            "{\"line\":2,\"refused\":\"bad_request\",\"what\":\"no_layers\"}\n",
        ),
        (
            RequestError::BadRequest(RequestWhat::BadLayer(5)),
            "{\"index\":5,\"line\":2,\"refused\":\"bad_request\",\"what\":\"bad_layer\"}\n",
        ),
        (
            RequestError::BadRequest(RequestWhat::BadSeal(0)),
            "{\"index\":0,\"line\":2,\"refused\":\"bad_request\",\"what\":\"bad_seal\"}\n",
        ),
        (
            RequestError::BadAdvisory {
                index: 1,
                what: RecordWhat::NoId,
            },
            "{\"index\":1,\"line\":2,\"refused\":\"bad_advisory\",\"what\":\"no_id\"}\n",
        ),
        (
            RequestError::DuplicateId {
                first: 0,
                second: 3,
            },
            "{\"first\":0,\"line\":2,\"refused\":\"duplicate_id\",\"second\":3}\n",
        ),
        (
            RequestError::TooManyAdvisories,
            "{\"line\":2,\"refused\":\"too_many_advisories\"}\n",
        ),
        (
            RequestError::NoMemory,
            "{\"line\":2,\"refused\":\"no_memory\"}\n",
        ),
    ] {
        let line = refusal_line(rt.alloc(), 2, &error)?;
        assert_eq!(rt; line.as_str(), want);
    }
    Ok(())
}

/// How the lines of a bad request and of a bad record begin, if they stand on line 2 and the record is number 1.
const REQUEST: &str = "{\"line\":2,\"refused\":\"bad_request\",";

const RECORD: &str = "{\"index\":1,\"line\":2,\"refused\":\"bad_advisory\",";

fn request(what: RequestWhat) -> RequestError {
    RequestError::BadRequest(what)
}

fn record(what: RecordWhat) -> RequestError {
    RequestError::BadAdvisory { index: 1, what }
}

#[test]
fn each_bad_request_and_each_bad_record_has_its_name(rt: HostRuntime) -> Result<(), Fail> {
    let alloc = rt.alloc();
    for (error, start, name) in [
        (request(RequestWhat::NotObject), REQUEST, "not_object"),
        (request(RequestWhat::BadLane), REQUEST, "bad_lane"),
        (request(RequestWhat::BadDo), REQUEST, "bad_do"),
        (request(RequestWhat::BadImage), REQUEST, "bad_image"),
        (request(RequestWhat::BadManifest), REQUEST, "bad_manifest"),
        (request(RequestWhat::BadHash), REQUEST, "bad_hash"),
        (request(RequestWhat::BadLayers), REQUEST, "bad_layers"),
        (request(RequestWhat::NoLayers), REQUEST, "no_layers"),
        (
            request(RequestWhat::TooManyLayers),
            REQUEST,
            "too_many_layers",
        ),
        (request(RequestWhat::BadFeed), REQUEST, "bad_feed"),
        (
            request(RequestWhat::BadAdvisories),
            REQUEST,
            "bad_advisories",
        ),
        (request(RequestWhat::BadNumber), REQUEST, "bad_number"),
        (request(RequestWhat::BadSize), REQUEST, "bad_size"),
        (request(RequestWhat::BadPage), REQUEST, "bad_page"),
        (record(RecordWhat::NotObject), RECORD, "not_object"),
        (record(RecordWhat::NoId), RECORD, "no_id"),
        (record(RecordWhat::NoModified), RECORD, "no_modified"),
        (record(RecordWhat::BadWithdrawn), RECORD, "bad_withdrawn"),
        (record(RecordWhat::BadAffected), RECORD, "bad_affected"),
        (record(RecordWhat::BadEntry), RECORD, "bad_entry"),
        (record(RecordWhat::BadPackage), RECORD, "bad_package"),
        (record(RecordWhat::BadRange), RECORD, "bad_range"),
        (record(RecordWhat::BadEvent), RECORD, "bad_event"),
        (record(RecordWhat::BadVersions), RECORD, "bad_versions"),
    ] {
        let line = refusal_line(alloc, 2, &error)?;
        let want = format!(in alloc; "{start}\"what\":\"{name}\"}}\n")?;
        assert_eq!(rt; line.as_str(), want.as_str());
    }
    Ok(())
}

#[test]
fn an_input_without_a_line_has_its_line(rt: HostRuntime) -> Result<(), Fail> {
    let line = no_manifest_line(rt.alloc())?;
    assert_eq!(rt; line.as_str(), "{\"line\":1,\"refused\":\"no_manifest\"}\n");
    Ok(())
}
