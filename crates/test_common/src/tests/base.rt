use cv_base::{
    Advisory, Affected, BadDigest, Content, Digest, FileBad, Finding, Kind, ListEntry, Manifest,
    NoMemory, Node, Package, PackageKind, PackageName, PathError, Place, Range, RangeKind, ReadBad,
    Reason, RelPath, Row, Seq, Text, Tree, TreeEntry, Turn, What,
};
use std::test::Fail;

fn is_shared<T: Send + Sync>() {}

#[test]
fn plain_data_is_shared_by_threads() {
    is_shared::<(Advisory, Affected, BadDigest, Content, Digest)>();
    is_shared::<(FileBad, Finding, Kind, ListEntry, Manifest, NoMemory, Node)>();
    is_shared::<(Package, PackageKind, PackageName, PathError, Place)>();
    is_shared::<(Range, RangeKind, ReadBad, Reason, RelPath, Row)>();
    is_shared::<(Seq<Text>, Tree, TreeEntry, Turn, What)>();
}

#[test]
fn a_path_has_a_directory_and_a_name(rt: HostRuntime) -> Result<(), Fail> {
    let alloc = rt.alloc();
    let path = RelPath::read(alloc, "etc/.wh.passwd")?;
    assert_eq!(rt; path.parent(alloc)?.text(), "etc");
    assert_eq!(rt; path.file_name(), Some(".wh.passwd"));
    assert_eq!(rt; path.with_file_name(alloc, "passwd")?.text(), "etc/passwd");
    assert_eq!(rt; path.depth(), 2);
    assert!(rt; path.compare_front(&path, 1).is_gt());
    Ok(())
}

#[test]
fn a_digest_is_written_as_it_is_read(rt: HostRuntime) -> Result<(), Fail> {
    let text = "sha256:00ff0123456789abcdef00112233445566778899aabbccddeeff010203040506";
    let digest = Digest::read(text.as_bytes())?;
    assert_eq!(rt; digest.bytes()[1], 255);
    assert_eq!(rt; digest.text(rt.alloc())?.as_str(), text);
    Ok(())
}

#[test]
fn other_texts_are_no_digests(rt: HostRuntime) {
    for text in [
        "",
        "sha256:",
        "sha512:00ff0123456789abcdef00112233445566778899aabbccddeeff010203040506",
        "sha256:00FF0123456789abcdef00112233445566778899aabbccddeeff010203040506",
        "sha256:00ff0123456789abcdef00112233445566778899aabbccddeeff0102030405",
        "sha256:00ff0123456789abcdef00112233445566778899aabbccddeeff01020304050600",
    ] {
        assert!(rt; Digest::read(text.as_bytes()).is_err(), "{text}");
    }
}
