use cv_base::{Digest, RelPath, What};
use cv_overlay::{ImageFault, TreeFault};
use cv_scan_output::{bad_image_line, bad_value};
use std::alloc::Global;
use std::test::Fail;

/// The value of a fault, as text.
fn value_of(alloc: Global, bad: &ImageFault) -> Result<String, Fail> {
    let value = bad_value(alloc, bad)?;
    Ok(value.to_string(alloc)?)
}

#[test]
fn each_fault_of_a_layer_has_its_value(rt: HostRuntime) -> Result<(), Fail> {
    let alloc = rt.alloc();
    for (bad, want) in [
        (
            ImageFault::NoLayer(0),
            "{\"cause\":\"no_layer\",\"layer\":0}",
        ),
        (
            ImageFault::BadTree(2, TreeFault::Unsorted(7)),
            "{\"cause\":\"bad_tree\",\"entry\":7,\"layer\":2,\"what\":\"unsorted\"}",
        ),
        (
            ImageFault::BadTree(2, TreeFault::NoParent(1)),
            "{\"cause\":\"bad_tree\",\"entry\":1,\"layer\":2,\"what\":\"no_parent\"}",
        ),
        (
            ImageFault::BadTree(2, TreeFault::BadMark(0)),
            "{\"cause\":\"bad_tree\",\"entry\":0,\"layer\":2,\"what\":\"bad_mark\"}",
        ),
        (
            ImageFault::BadTree(2, TreeFault::TooMany),
            "{\"cause\":\"bad_tree\",\"layer\":2,\"what\":\"too_many\"}",
        ),
        (
            ImageFault::BadSeal {
                layer: 3,
                stated: Digest::of([0x11; 32]),
                found: Digest::of([0xab; 32]),
            },
            "{\"cause\":\"bad_seal\",\"found\":\"sha256:abababababababababababababababababababababababababababababababab\",\"layer\":3,\"stated\":\"sha256:1111111111111111111111111111111111111111111111111111111111111111\"}",
        ),
    ] {
        assert_eq!(rt; value_of(alloc, &bad)?.as_str(), want);
    }
    Ok(())
}

#[test]
fn each_fault_of_a_file_has_its_value(rt: HostRuntime) -> Result<(), Fail> {
    let alloc = rt.alloc();
    let bad_file = ImageFault::BadFile {
        path: RelPath::read(alloc, "var/lib/dpkg/status")?,
        line: 3,
        what: What::NoColon,
    };
    let too_large = ImageFault::TooLarge {
        path: RelPath::read(alloc, "lib/apk/db/installed")?,
    };
    for (bad, want) in [
        (
            bad_file,
            "{\"cause\":\"bad_file\",\"line\":3,\"path\":\"var/lib/dpkg/status\",\"what\":\"no_colon\"}",
        ),
        (
            too_large,
            "{\"cause\":\"too_large\",\"path\":\"lib/apk/db/installed\"}",
        ),
    ] {
        assert_eq!(rt; value_of(alloc, &bad)?.as_str(), want);
    }
    Ok(())
}

#[test]
fn a_bad_image_has_its_line(rt: HostRuntime) -> Result<(), Fail> {
    let image = Digest::read(
        b"sha256:1111111111111111111111111111111111111111111111111111111111111111".as_slice(),
    )?;
    let line = bad_image_line(rt.alloc(), &image, &ImageFault::NoLayer(0))?;
    assert_eq!(rt;
        line.as_str(),
        "{\"bad\":{\"cause\":\"no_layer\",\"layer\":0},\"image\":\"sha256:1111111111111111111111111111111111111111111111111111111111111111\",\"reply\":\"bad_image\"}\n"
    );
    Ok(())
}
