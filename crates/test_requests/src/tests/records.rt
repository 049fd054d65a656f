use cv_osv::{OsvError, RecordList, read_records};
use serde_json::Value;
use std::test::Fail;

#[test]
fn the_first_fault_of_a_list_is_the_answer(rt: HostRuntime) -> Result<(), Fail> {
    for (json, want) in [
        ("{}", "Some(NotList)"),
        ("[]", "None"),
        (
            r#"[{"id":"A","modified":"m"},{"id":"a","modified":"m"}]"#,
            "None",
        ),
        (
            r#"[{"id":"A","modified":"m"},{},{"id":"A","modified":"m"}]"#,
            "Some(BadAdvisory { index: 1, what: NoId })",
        ),
        (
            r#"[{"id":"A","modified":"m"},{"id":"B","modified":"m"},{"id":"A","modified":"m"},{}]"#,
            "Some(DuplicateId { first: 0, second: 2 })",
        ),
    ] {
        let value = Value::from_str(rt.alloc(), json)?;
        let refusal = read_records(rt.alloc(), &value).err();
        let refusal = format!(in rt.alloc(); "{refusal:?}")?;
        assert_eq!(rt; refusal.as_str(), want, "{json}");
    }
    Ok(())
}

#[test]
fn a_list_has_a_limit(rt: HostRuntime) -> Result<(), Fail> {
    let mut items = Vec::new(rt.alloc());
    for _ in 0..200_001u32 {
        items.push(Value::Null)?;
    }
    let refusal = read_records(rt.alloc(), &Value::Array(items)).err();
    assert_eq!(rt; refusal, Some(OsvError::TooMany));
    Ok(())
}

/// Takes what may go to another thread and be shared.
fn shared<T: Send + Sync + Drop>(_value: T) {}

#[test]
fn threads_may_share_what_is_read(rt: HostRuntime) {
    shared(RecordList::new(rt.alloc()));
    shared(OsvError::NotList);
}
