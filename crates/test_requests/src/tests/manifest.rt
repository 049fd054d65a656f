use cv_request::{RequestError, RequestWhat, read_json, read_manifest};
use std::alloc::Global;
use std::test::Fail;

/// A manifest of this number of layers.
fn manifest_of(alloc: Global, layers: usize) -> Result<String, Fail> {
    let mut text = String::from_str(
        alloc,
        "{\"hash\":\"sha256:aaaaaaaaaaaaaaaaaaaaaaaaaaaaaaaaaaaaaaaaaaaaaaaaaaaaaaaaaaaaaaaa\",\"layers\":[",
    )?;
    for index in 0..layers {
        if index > 0 {
            text.push(',')?;
        }
        text.push_str(
            "{\"hash\":\"sha256:aaaaaaaaaaaaaaaaaaaaaaaaaaaaaaaaaaaaaaaaaaaaaaaaaaaaaaaaaaaaaaaa\",\"uri\":7}",
        )?;
    }
    text.push_str("]}")?;
    Ok(text)
}

/// How many layers a manifest has, or why the text is not one.
fn count(alloc: Global, text: &str) -> Result<usize, RequestError> {
    let value = read_json(alloc, text.as_bytes())?;
    let manifest = read_manifest(alloc, &value)?;
    Ok(manifest.layers.as_slice().len())
}

#[test]
fn an_image_has_1_to_128_layers(rt: HostRuntime) -> Result<(), Fail> {
    for (layers, want) in [
        (0, Err(RequestError::BadRequest(RequestWhat::NoLayers))),
        (1, Ok(1)),
        (128, Ok(128)),
        (
            129,
            Err(RequestError::BadRequest(RequestWhat::TooManyLayers)),
        ),
    ] {
        let text = manifest_of(rt.alloc(), layers)?;
        assert_eq!(rt; count(rt.alloc(), text.as_str()), want, "{layers} layers");
    }
    Ok(())
}

#[test]
fn the_first_fault_of_a_manifest_is_the_answer(rt: HostRuntime) -> Result<(), Fail> {
    for (want, text) in [
        (RequestWhat::BadManifest, "[]"),
        (RequestWhat::BadHash, r#"{"hash":null,"layers":null}"#),
        (RequestWhat::BadHash, r#"{"hash":"sha256:aa","layers":[]}"#),
        (
            RequestWhat::BadLayers,
            r#"{"hash":"sha256:aaaaaaaaaaaaaaaaaaaaaaaaaaaaaaaaaaaaaaaaaaaaaaaaaaaaaaaaaaaaaaaa"}"#,
        ),
        (
            RequestWhat::BadLayer(1),
            r#"{"hash":"sha256:aaaaaaaaaaaaaaaaaaaaaaaaaaaaaaaaaaaaaaaaaaaaaaaaaaaaaaaaaaaaaaaa","layers":[{"hash":"sha256:aaaaaaaaaaaaaaaaaaaaaaaaaaaaaaaaaaaaaaaaaaaaaaaaaaaaaaaaaaaaaaaa"},{},7]}"#,
        ),
    ] {
        assert_eq!(rt;
            count(rt.alloc(), text),
            Err(RequestError::BadRequest(want)),
            "{text}"
        );
    }
    Ok(())
}

#[test]
fn other_lines_are_not_json(rt: HostRuntime) -> Result<(), Fail> {
    for line in [
        b"".as_slice(),
        b" ".as_slice(),
        b"{} {}".as_slice(),
        b"\"\xff\"".as_slice(),
        b"{\"a\":}".as_slice(),
    ] {
        let refusal = read_json(rt.alloc(), line).err();
        assert_eq!(rt; refusal, Some(RequestError::BadJson), "{line:?}");
    }
    read_json(rt.alloc(), b" {} ".as_slice())?;
    Ok(())
}
