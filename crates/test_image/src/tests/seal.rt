use cv_base::{Digest, Kind, ListEntry, RelPath};
use cv_seal::{Seal, is_summed};
use std::alloc::Global;
use std::test::Fail;

/// An entry: its path, what it is, its size, and its bytes where they are summed.
type Row = (&'static str, Kind, u64, &'static [u8]);

/// Files elsewhere, one of more than 4 GiB, a link, and both os-release.
const FILES: &[Row] = &[
    ("bin", Kind::Dir, 0, b""),
    ("bin/a", Kind::File, 4_294_967_554, b""),
    ("bin/b", Kind::Other, 0, b""),
    ("etc", Kind::Dir, 0, b""),
    ("etc/os-release", Kind::File, 10, b"ID=debian\n"),
    ("usr", Kind::Dir, 0, b""),
    ("usr/lib", Kind::Dir, 0, b""),
    ("usr/lib/os-release", Kind::File, 3, b"ID="),
    ("usr/lib/os-release-x", Kind::File, 2, b""),
];

/// Files at the other places, one of them empty, and beside them.
const PLACES: &[Row] = &[
    ("app", Kind::Dir, 0, b""),
    ("app/node_modules", Kind::Dir, 0, b""),
    ("app/node_modules/@s", Kind::Dir, 0, b""),
    ("app/node_modules/@s/x", Kind::Dir, 0, b""),
    ("app/node_modules/@s/x/package.json", Kind::File, 2, b"{}"),
    ("app/node_modules/x", Kind::Dir, 0, b""),
    (
        "app/node_modules/x/package.json",
        Kind::File,
        4,
        b"\x00\xff\r\n",
    ),
    ("app/package.json", Kind::File, 2, b""),
    ("lib/apk/db/installed", Kind::File, 3, b"P:a"),
    ("usr/lib/apk/db/installed", Kind::File, 0, b""),
    ("var/lib/dpkg/status", Kind::File, 11, b"Package: a\n"),
    ("var/lib/dpkg/status.d/a", Kind::File, 1, b"x"),
    ("var/lib/dpkg/status.d/a.md5sums", Kind::File, 1, b""),
];

/// Opaque marks, whiteouts and a reserved directory, in the folder of status files and elsewhere.
const MARKS: &[Row] = &[
    (".wh..wh..opq", Kind::File, 0, b""),
    (".wh..wh.plnk", Kind::Dir, 0, b""),
    ("etc/.wh.os-release", Kind::File, 0, b""),
    ("var/lib/dpkg/.wh.status", Kind::File, 7, b""),
    ("var/lib/dpkg/status.d/.wh..wh..opq", Kind::File, 1, b"o"),
    ("var/lib/dpkg/status.d/.wh.a", Kind::File, 5, b"bytes"),
];

/// A file above the limit, and what is no file.
const LARGE: &[Row] = &[
    ("etc/os-release", Kind::File, 33_554_433, b""),
    ("var/lib/dpkg/status", Kind::Dir, 0, b""),
    ("var/lib/dpkg/status.d/a", Kind::Other, 0, b""),
];

/// Layers with their seals, which Python's hashlib gave for bytes that another program made by the rule.
const LAYERS: &[(&[Row], &str)] = &[
    (
        &[],
        "sha256:5ebacc8e5ab0938f75f6c3dbd1df1c0210545a9b8d6b619a5a817100c8ac32a0",
    ),
    (
        &[("a", Kind::Dir, 0, b"")],
        "sha256:ab301359639706a9e0932821554d9247436bc5c0f55eb269ba171e8f2e31a57d",
    ),
    (
        FILES,
        "sha256:01c23108837a1bd24da510c16454d84f3339aeaedbe0fddf250d37bb38fd28bd",
    ),
    (
        PLACES,
        "sha256:6bf684b8b394a4c5712c5eb75853e12eb9d1db447c970c977063cd597b60600b",
    ),
    (
        MARKS,
        "sha256:6c4aaa21fb74f6833406df7868020fe49c2c232b73ac9b95ad5db3524e818ba7",
    ),
    (
        LARGE,
        "sha256:3efcb07354f01cec5875aa98b3f904ff4b61c6d0d84f31abcb5669b9eda59a91",
    ),
    (
        &[("x", Kind::File, u64::MAX, b"")],
        "sha256:5e88e2005c3b6a1f4bbed83d85aeca2f78fd1f1dff3c6aa7daeba713841612be",
    ),
];

fn take_in(seal: &mut Seal, entry: &ListEntry, bytes: &[u8]) -> Result<(), Fail> {
    if !is_summed(entry) {
        seal.entry(entry, None);
        return Ok(());
    }
    if bytes.len() as u64 != entry.size {
        return Err("a row with another size than its bytes have")?;
    }
    seal.entry(entry, Some(bytes));
    Ok(())
}

fn seal_of(alloc: Global, rows: &[Row]) -> Result<Digest, Fail> {
    let mut seal = Seal::new();
    for (path, kind, size, bytes) in rows {
        let entry = ListEntry {
            path: RelPath::read(alloc, path)?,
            kind: *kind,
            size: *size,
        };
        take_in(&mut seal, &entry, bytes)?;
    }
    Ok(sent(seal).finish())
}

fn sent<T: Send + Sync>(value: T) -> T {
    value
}

#[test]
fn seals_are_those_of_another_program(rt: HostRuntime) -> Result<(), Fail> {
    for (rows, want) in LAYERS {
        let seal = seal_of(rt.alloc(), rows)?.text(rt.alloc())?;
        assert_eq!(rt; seal.as_str(), *want);
    }
    Ok(())
}
