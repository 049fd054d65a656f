//! Files with one damaged line: where it first can stand, at the end of the file without an LF, behind sound paragraphs,
//! before a fault of a later line, and behind one of an earlier line.
use cv_apkdb::read_installed;
use cv_base::{FileBad, ReadBad, What};
use cv_dpkg::{StatusRule, read_status};
use cv_pypi::read_metadata;
use std::alloc::Global;
use std::process::Abort;
use std::test::Fail;

/// A damaged line, with the lines of its paragraph before it, and its fault.
type Damage = (&'static [u8], &'static [u8], What);

/// A sound paragraph of a status file, with the empty line after it.
const SOUND_STATUS: &[u8] = b"Package: g\nStatus: install ok installed\nVersion: 1\n\n";

/// Damaged lines of a status file.
const STATUS: &[Damage] = &[
    (b"", b" x", What::LooseContinuation),
    (b"", b"\tPackage: a", What::LooseContinuation),
    (b"", b"Package", What::NoColon),
    (b"", b".", What::NoColon),
    (b"", b": x", What::BadField),
    (b"", b"#Package: a", What::BadField),
    (b"", b"-Package: a", What::BadField),
    (b"", b"Package : a", What::BadField),
    (b"", b"Pack\x7fage: a", What::BadField),
    (b"", b"Pack\xc3\xa9: a", What::BadField),
    (b"", b"Pack\x00: a", What::BadField),
    (b"A: x\n", b"A: y", What::RepeatedField),
    (b"A: x\n", b"a:", What::RepeatedField),
    (b"Package: a\n x\n", b"PACKAGE: a", What::RepeatedField),
    (b"", b"Status:", What::BadStatus),
    (b"", b"Status: install ok", What::BadStatus),
    (b"", b"Status: install ok installed x", What::BadStatus),
    (b"", b"Status: install ok Installed", What::BadStatus),
    (b"", b"Status: install ok gone", What::BadStatus),
    (b"", b"Package:", What::BadValue),
    (b"", b"Package: \t ", What::BadValue),
    (b"", b"Package: a b", What::BadValue),
    (b"", b"Package: a\x01", What::BadValue),
    (b"", b"Version: 1 2", What::BadValue),
    (b"", b"Version: 1\xff", What::BadValue),
    (b"", b"Architecture: a b", What::BadValue),
    (b"", b"Source: a b", What::BadValue),
    (b"", b"Source: (1)", What::BadValue),
    (b"", b"Source: a ()", What::BadValue),
    (b"", b"Source: a (1", What::BadValue),
    (b"", b"Source: a (1) b", What::BadValue),
    (b"", b"Source: a (1 2)", What::BadValue),
    (b"", b"Source: a ((1))", What::BadValue),
    (b"", b"Source: a)", What::BadValue),
    (b"", b"Version: 1", What::NoPackage),
    (
        b"Status: install ok installed\n",
        b"Version: 1",
        What::NoPackage,
    ),
    (b"Version: 1\n", b" x", What::NoPackage),
    (b"", b"Package: a", What::BadStatus),
    (b"Package: a\n", b"Version: 1", What::BadStatus),
    (
        b"Package: a\n",
        b"Status: install ok installed",
        What::NoVersion,
    ),
    (
        b"Package: a\nVersion:\n",
        b"Status: a b unpacked",
        What::NoVersion,
    ),
    (
        b"Package: a\nStatus: a b half-configured\n",
        b"Version: \t",
        What::NoVersion,
    ),
];

/// A sound paragraph of apk's database, with the empty line after it.
const SOUND_INSTALLED: &[u8] = b"P:g\nV:1\n\n";

/// Damaged lines of apk's database.
const INSTALLED: &[Damage] = &[
    (b"", b"P", What::NoColon),
    (b"", b"PP:a", What::NoColon),
    (b"", b" P:a", What::NoColon),
    (b"", b"\r", What::NoColon),
    (b"P:a\n", b"P:a", What::Repeated),
    (b"V:1\n", b"V:2", What::Repeated),
    (b"A:\n", b"A:", What::Repeated),
    (b"o:x\n", b"o:", What::Repeated),
    (b"", b"P:", What::BadValue),
    (b"", b"V:", What::BadValue),
    (b"", b"P:a b", What::BadValue),
    (b"", b"P:a\r", What::BadValue),
    (b"", b"V:1\x7f", What::BadValue),
    (b"", b"A:\x00", What::BadValue),
    (b"", b"o:\xff", What::BadValue),
    (b"", b"V:1", What::NoName),
    (b"V:1\n", b"X:y", What::NoName),
    (b"", b"P:a", What::NoVersion),
    (b"P:a\nA:x\n", b"C:Q1AA=", What::NoVersion),
];

/// Lines of a Python package's metadata in the place of its name, and in that of its version, with which the file names no package.
const METADATA: &[(&[u8], &[u8])] = &[
    (b"Name:", b"Version: 1"),
    (b"Name: \t", b"Version: 1"),
    (b"Name: a b", b"Version: 1"),
    (b"Name: a\x7f", b"Version: 1"),
    (b"Name: \xc3\xa9", b"Version: 1"),
    (b"Name", b"Version: 1"),
    (b"Name : a", b"Version: 1"),
    (b" Name: a", b"Version: 1"),
    (b"\xef\xbb\xbfName: a", b"Version: 1"),
    (b"", b"Version: 1"),
    (b"Name: a", b"Version:"),
    (b"Name: a", b"Version: 1 2"),
    (b"Name: a", b"Version: \x00"),
    (b"Name: a", b"Version"),
    (b"Name: a", b""),
];

/// The parts as one file.
fn joined(alloc: Global, parts: &[&[u8]]) -> Result<Vec<u8>, Fail> {
    let mut file = Vec::new(alloc);
    for part in parts {
        file.extend_from_slice(part)?;
    }
    Ok(file)
}

/// How many LFs a text has.
fn lines(text: &[u8]) -> u64 {
    text.iter().filter(|byte| **byte == b'\n').count() as u64
}

/// Files whose first fault is that of the damaged line, each with the number of that line.
fn damaged(
    alloc: Global,
    sound: &[u8],
    before: &[u8],
    line: &[u8],
) -> Result<Vec<(Vec<u8>, u64)>, Fail> {
    let own = lines(before).saturating_add(1);
    Ok(vec![in alloc;
        (joined(alloc, &[before, line, b"\n"])?, own),
        (joined(alloc, &[before, line])?, own),
        (
            joined(alloc, &[sound, before, line])?,
            lines(sound).saturating_add(own)
        ),
        (joined(alloc, &[before, line, b"\n\nx\n"])?, own),
    ]?)
}

/// The files of blocks whose lines are damaged.
#[derive(Clone, Copy)]
enum Format {
    Status,
    Installed,
}

/// Why a file is refused, if it is.
fn refusal(alloc: Global, format: Format, file: &[u8]) -> Option<ReadBad> {
    match format {
        Format::Status => read_status(alloc, file, StatusRule::Needed).err(),
        Format::Installed => read_installed(alloc, file).err(),
    }
}

/// Each damaged line of a format is named.
fn try_damaged<R: Abort>(
    rt: &R,
    alloc: Global,
    format: Format,
    sound: &[u8],
    rows: &[Damage],
) -> Result<(), Fail> {
    for (before, line, what) in rows {
        for (file, number) in damaged(alloc, sound, before, line)? {
            let bad = ReadBad::Bad(FileBad {
                line: number,
                what: *what,
            });
            assert_eq!(rt; refusal(alloc, format, &file), Some(bad), "{file:?}");
        }
    }
    Ok(())
}

/// A bad first line is named before each damaged line of a format.
fn try_earlier<R: Abort>(
    rt: &R,
    alloc: Global,
    format: Format,
    rows: &[Damage],
) -> Result<(), Fail> {
    for (before, line, _) in rows {
        let file = joined(alloc, &[b"x\n\n", before, line])?;
        let bad = ReadBad::Bad(FileBad {
            line: 1,
            what: What::NoColon,
        });
        assert_eq!(rt; refusal(alloc, format, &file), Some(bad), "{file:?}");
    }
    Ok(())
}

#[test]
fn a_damaged_line_of_a_status_file_is_named(rt: HostRuntime) -> Result<(), Fail> {
    try_damaged(&rt, rt.alloc(), Format::Status, SOUND_STATUS, STATUS)
}

#[test]
fn an_earlier_line_of_a_status_file_is_named_before_it(rt: HostRuntime) -> Result<(), Fail> {
    try_earlier(&rt, rt.alloc(), Format::Status, STATUS)
}

#[test]
fn a_damaged_line_of_an_installed_file_is_named(rt: HostRuntime) -> Result<(), Fail> {
    try_damaged(
        &rt,
        rt.alloc(),
        Format::Installed,
        SOUND_INSTALLED,
        INSTALLED,
    )
}

#[test]
fn an_earlier_line_of_an_installed_file_is_named_before_it(rt: HostRuntime) -> Result<(), Fail> {
    try_earlier(&rt, rt.alloc(), Format::Installed, INSTALLED)
}

/// The name before the version and behind it, with and without an LF at the end, before lines that would name a package, and behind
/// other fields.
#[test]
fn damaged_metadata_names_no_package(rt: HostRuntime) -> Result<(), Fail> {
    let alloc = rt.alloc();
    for (name, version) in METADATA {
        for parts in [
            [b"" as &[u8], name, b"\n", version, b"\n"],
            [b"", name, b"\n", version, b""],
            [b"", version, b"\n", name, b""],
            [
                b"X: y\n",
                name,
                b"\n",
                version,
                b"\n\nName: a\nVersion: 1\n",
            ],
        ] {
            let file = joined(alloc, &parts)?;
            assert_eq!(rt; read_metadata(alloc, &file), Ok(None), "{file:?}");
        }
    }
    Ok(())
}
