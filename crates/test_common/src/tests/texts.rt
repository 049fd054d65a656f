use cv_base::Text;
use std::test::Fail;

fn sent<T: Send + Sync>(value: T) -> T {
    value
}

#[test]
fn a_text_is_kept_and_ordered_by_bytes(rt: HostRuntime) -> Result<(), Fail> {
    let alloc = rt.alloc();
    let lower = sent(Text::of(alloc, "curl")?);
    let upper = Text::of(alloc, "Curl")?;
    let is_copied = lower.clone()? == lower;
    assert_eq!(rt;
        (lower.as_str(), upper < lower, is_copied),
        ("curl", true, true)
    );
    Ok(())
}
