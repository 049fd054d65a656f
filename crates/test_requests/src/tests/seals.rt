use cv_base::{Digest, Manifest};
use cv_request::{RequestError, RequestWhat, read_json, read_manifest};
use std::alloc::Global;
use std::test::Fail;

/// Digests as JSON.
const A: &str = r#""sha256:aaaaaaaaaaaaaaaaaaaaaaaaaaaaaaaaaaaaaaaaaaaaaaaaaaaaaaaaaaaaaaaa""#;

const ZEROS: &str = r#""sha256:0000000000000000000000000000000000000000000000000000000000000000""#;

const ONES: &str = r#""sha256:1111111111111111111111111111111111111111111111111111111111111111""#;

const CAPITALS: &str =
    r#""sha256:AAAAAAAAAAAAAAAAAAAAAAAAAAAAAAAAAAAAAAAAAAAAAAAAAAAAAAAAAAAAAAAA""#;

/// The members `hash` and `seal` of a layer as JSON, where they are present.
type Layer = (Option<&'static str>, Option<&'static str>);

/// Adds a member after others, if it is present.
fn push_member(text: &mut String, name: &str, value: Option<&str>) -> Result<(), Fail> {
    if let Some(value) = value {
        text.push_str(",\"")?;
        text.push_str(name)?;
        text.push_str("\":")?;
        text.push_str(value)?;
    }
    Ok(())
}

/// A manifest of these layers.
fn text_of(alloc: Global, layers: &[Layer]) -> Result<String, Fail> {
    let mut text = String::from_str(alloc, "{\"hash\":")?;
    text.push_str(ONES)?;
    text.push_str(",\"layers\":[")?;
    for (index, (hash, seal)) in layers.iter().enumerate() {
        text.push_str(if index == 0 { "" } else { "," })?;
        text.push_str("{\"uri\":\"u\"")?;
        push_member(&mut text, "hash", *hash)?;
        push_member(&mut text, "seal", *seal)?;
        text.push('}')?;
    }
    text.push_str("]}")?;
    Ok(text)
}

fn manifest(alloc: Global, text: &str) -> Result<Manifest, RequestError> {
    let value = read_json(alloc, text.as_bytes())?;
    read_manifest(alloc, &value)
}

#[test]
fn a_layer_has_its_stated_seal_or_none(rt: HostRuntime) -> Result<(), Fail> {
    // one layer three times, with different seals and with none
    let layers = [
        (Some(A), Some(ZEROS)),
        (Some(A), None),
        (Some(A), Some(ONES)),
    ];
    let text = text_of(rt.alloc(), layers.as_slice())?;
    let manifest = manifest(rt.alloc(), text.as_str())?;
    let layer = Digest::of([0xaa; 32]);
    assert_eq!(rt;
        manifest.layers.as_slice(),
        [layer, layer, layer].as_slice()
    );
    let seals = [
        Some(Digest::of([0; 32])),
        None,
        Some(Digest::of([0x11; 32])),
    ];
    assert_eq!(rt; manifest.seals.as_slice(), seals.as_slice());
    Ok(())
}

#[test]
fn a_seal_is_a_digest(rt: HostRuntime) -> Result<(), Fail> {
    for seal in ["null", "7", "{}", "\"x\"", "\"\"", CAPITALS] {
        let layers = [
            (Some(A), Some(ZEROS)),
            (Some(A), Some(seal)),
            (Some(A), None),
        ];
        let text = text_of(rt.alloc(), layers.as_slice())?;
        assert_eq!(rt;
            manifest(rt.alloc(), text.as_str()),
            Err(RequestError::BadRequest(RequestWhat::BadSeal(1))),
            "{seal}"
        );
    }
    Ok(())
}

#[test]
fn the_first_bad_layer_is_named_by_its_hash_before_its_seal(rt: HostRuntime) -> Result<(), Fail> {
    let bad_seal = (Some(A), Some("7"));
    let bad_layer = (Some("7"), None);
    let bad_both = (None, Some("7"));
    for (first, second, want) in [
        (bad_both, bad_seal, RequestWhat::BadLayer(0)),
        (bad_layer, bad_seal, RequestWhat::BadLayer(0)),
        (bad_seal, bad_layer, RequestWhat::BadSeal(0)),
        (bad_seal, bad_both, RequestWhat::BadSeal(0)),
        ((Some(A), None), bad_both, RequestWhat::BadLayer(1)),
    ] {
        let text = text_of(rt.alloc(), [first, second].as_slice())?;
        assert_eq!(rt;
            manifest(rt.alloc(), text.as_str()),
            Err(RequestError::BadRequest(want)),
            "{text}"
        );
    }
    Ok(())
}
