use cv_base::Seq;
use cv_io::{CalmSource, MemSource};
use cv_osv::RecordWhat;
use cv_request::{RequestFault, RequestWhat};
use cv_scan_input::{ImageKind, InputError, InputFault, InputKind, ScanKind, read_input};
use std::alloc::Global;
use std::test::Fail;

const MANIFEST: &str =
    "{\"hash\":\"sha256:1111111111111111111111111111111111111111111111111111111111111111\",\"layers\":[{\"hash\":\"sha256:2222222222222222222222222222222222222222222222222222222222222222\"}]}";

const FIRST: &str = "{\"id\":\"X-1\",\"modified\":\"m\"}";

const SECOND: &str = "{\"id\":\"X-2\",\"modified\":\"m\",\"withdrawn\":\"w\"}";

/// The lines as an input.
fn input_of(alloc: Global, lines: &[&str]) -> Result<Seq<u8>, Fail> {
    let mut text = String::new(alloc);
    for line in lines {
        text.push_str(*line)?;
        text.push('\n')?;
    }
    Ok(Seq::of(text.as_bytes().to_vec(alloc)?))
}

/// Why the lines are refused as an input of this kind, if they are.
fn refusal_of<K: InputKind>(alloc: Global, lines: &[&str]) -> Result<Option<InputError>, Fail> {
    let mut input = CalmSource::new(input_of(alloc, lines)?, 7);
    Ok(read_input::<CalmSource, K>(alloc, &mut input).err())
}

#[test]
fn empty_lines_are_ignored(rt: HostRuntime) -> Result<(), Fail> {
    let alloc = rt.alloc();
    let bytes = input_of(alloc, &[MANIFEST, "", FIRST, "\r", "", SECOND])?;
    let mut input = CalmSource::new(bytes, 7);
    let request = read_input::<CalmSource, ScanKind>(alloc, &mut input)?;
    assert_eq!(rt; request.first.layers.as_slice().len(), 1);
    let [first, second] = request.records.as_slice() else {
        return Err(Fail::from("there are two records"));
    };
    assert_eq!(rt; first.id.as_str(), "X-1");
    assert_eq!(rt; second.id.as_str(), "X-2");
    assert!(rt; second.withdrawn && !first.withdrawn);
    shared(request);
    shared(InputError::NoLine);
    Ok(())
}

#[test]
fn the_first_refused_line_is_the_answer(rt: HostRuntime) -> Result<(), Fail> {
    let no_id = RequestFault::BadAdvisory {
        index: 1,
        what: RecordWhat::NoId,
    };
    let same_id = RequestFault::DuplicateId {
        first: 1,
        second: 2,
    };
    let table: [(&[&str], u64, RequestFault); 6] = [
        (&["", MANIFEST], 1, RequestFault::BadJson),
        (
            &["[]", FIRST, FIRST],
            1,
            RequestFault::BadRequest(RequestWhat::BadManifest),
        ),
        (
            &[FIRST, MANIFEST],
            1,
            RequestFault::BadRequest(RequestWhat::BadHash),
        ),
        (&[MANIFEST, FIRST, "", "X", "{}"], 4, RequestFault::BadJson),
        (&[MANIFEST, "", FIRST, "", "", "{}", FIRST], 6, no_id),
        (&[MANIFEST, SECOND, FIRST, "", FIRST, "X"], 5, same_id),
    ];
    for (lines, line, fault) in table {
        let fault = InputFault::Request(fault);
        assert_eq!(rt;
            refusal_of::<ScanKind>(rt.alloc(), lines)?,
            Some(InputError::Refused { line, fault })
        );
    }
    assert_eq!(rt;
        refusal_of::<ScanKind>(rt.alloc(), &[])?,
        Some(InputError::NoLine)
    );
    assert_eq!(rt; refusal_of::<ScanKind>(rt.alloc(), &[MANIFEST])?, None);
    Ok(())
}

#[test]
fn an_image_alone_has_no_records(rt: HostRuntime) -> Result<(), Fail> {
    let alloc = rt.alloc();
    let bytes = input_of(alloc, &[MANIFEST, "", "\r", ""])?;
    let mut input = CalmSource::new(bytes, 7);
    let request = read_input::<CalmSource, ImageKind>(alloc, &mut input)?;
    assert_eq!(rt; request.first.layers.as_slice().len(), 1);
    let fault = InputFault::ExtraLine;
    assert_eq!(rt;
        refusal_of::<ImageKind>(alloc, &[MANIFEST, "", FIRST, "X"])?,
        Some(InputError::Refused { line: 3, fault })
    );
    Ok(())
}

#[test]
fn a_failing_source_is_blamed(rt: HostRuntime) -> Result<(), Fail> {
    let alloc = rt.alloc();
    for call in 1..4 {
        let fails = Seq::of(vec![in alloc; call]?);
        let mut input = MemSource::new(input_of(alloc, &[MANIFEST, FIRST])?, 100, fails);
        let refusal = read_input::<MemSource, ScanKind>(alloc, &mut input).err();
        assert_eq!(rt; refusal, Some(InputError::ReadFault), "call {call} fails");
    }
    Ok(())
}

/// Takes what may go to another thread and be shared.
fn shared<T: Send + Sync + Drop>(_value: T) {}
