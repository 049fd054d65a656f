use cv_base::Text;
use cv_pypi::{PypiPackage, read_metadata};
use std::alloc::Global;
use std::test::Fail;

/// The package of this name, version and source.
fn package(alloc: Global, [name, version, source]: [&str; 3]) -> Result<PypiPackage, Fail> {
    Ok(sent(PypiPackage {
        name: Text::of(alloc, name)?,
        version: Text::of(alloc, version)?,
        source: Text::of(alloc, source)?,
    }))
}

fn sent<T: Send + Sync>(value: T) -> T {
    value
}

/// Files with the name, the version and the source of their package.
const PACKAGES: &[(&[u8], [&str; 3])] = &[
    // A whole file of an installed package, and the names that PEP 503 compares.
    (
        b"Metadata-Version: 2.1\nName: Jinja2\nVersion: 3.1.2\nSummary: A very fast and expressive template engine.\nHome-page: https://palletsprojects.com/p/jinja/\nClassifier: License :: OSI Approved\nRequires-Dist: MarkupSafe (>=2.0)\n\nJinja\n=====\nName: x\nVersion: y\n",
        ["Jinja2", "3.1.2", "jinja2"],
    ),
    (
        b"Name: FrIeNdLy-._.-bArD\nVersion: 1!2.0.post1+local\n",
        ["FrIeNdLy-._.-bArD", "1!2.0.post1+local", "friendly-bard"],
    ),
    // Runs of separators at the ends, and separators alone.
    (
        b"Name: __A..b__C-\nVersion: 1\n",
        ["__A..b__C-", "1", "-a-b-c-"],
    ),
    (b"Name: .\nVersion: -\n", [".", "-", "-"]),
    // Names of fields in any case, no blank after the colon, several, and blanks at the end.
    (
        b"nAmE:zope.interface \t\nVERSION: \t 5 \n",
        ["zope.interface", "5", "zope-interface"],
    ),
    // CR LF, and the empty line with a CR.
    (
        b"Name: a\r\nVersion: 1\r\n\r\nName: b\r\nVersion: 2\r\n",
        ["a", "1", "a"],
    ),
    // No LF at the end, and a value with colons.
    (b"Version: 1:2\nName: a:b", ["a:b", "1:2", "a:b"]),
    // The first of two counts, in either order.
    (
        b"Version: 1\nName: a\nVersion: 2\nName: b\n",
        ["a", "1", "a"],
    ),
    // Continuation lines, lines without a colon, other fields, and a line of blanks, which ends nothing.
    (
        b"Description: a\n Name: x\n\tVersion: y\n \t\nText\nName : z\nX-Name: x\nName: a\nVersion: 1\n",
        ["a", "1", "a"],
    ),
];

/// Files that name no package.
const OTHERS: &[&[u8]] = &[
    // Nothing, no Name, no Version, and one of them after the empty line.
    b"",
    b"\nName: a\nVersion: 1\n",
    b"\r\nName: a\nVersion: 1\n",
    b"Version: 1\n",
    b"Name: a\n",
    b"Name: a\n\nVersion: 1\n",
    // A first value that is empty, or has a byte that does not print, hides a later one.
    b"Name:\nName: a\nVersion: 1\n",
    b"Name: \t \nName: a\nVersion: 1\n",
    b"Name: a\nVersion:\nVersion: 1\n",
    b"Name: a b\nName: a\nVersion: 1\n",
    b"Name: a\nVersion: 1 2\nVersion: 1\n",
    b"Name: a\xc3\xa9\nVersion: 1\n",
    b"Name: a\nVersion: \x7f\n",
    b"Name: a\x00\nVersion: 1\n",
    // Of two CRs one stays, and so does one before a blank.
    b"Name: a\r\r\nVersion: 1\n",
    b"Name: a\nVersion: 1\r \n",
    // A byte order mark is a part of the first name.
    b"\xef\xbb\xbfName: a\nVersion: 1\n",
    // The name ends at the colon.
    b"Name : a\nVersion: 1\n",
    b"Name a\nVersion: 1\n",
    b" Name: a\nVersion: 1\n",
];

#[test]
fn files_name_their_packages(rt: HostRuntime) -> Result<(), Fail> {
    let alloc = rt.alloc();
    for (bytes, want) in PACKAGES {
        let want = package(alloc, *want)?;
        assert_eq!(rt; read_metadata(alloc, bytes), Ok(Some(want)), "{bytes:?}");
    }
    Ok(())
}

#[test]
fn other_files_name_none(rt: HostRuntime) -> Result<(), Fail> {
    for bytes in OTHERS {
        assert_eq!(rt; read_metadata(rt.alloc(), bytes), Ok(None), "{bytes:?}");
    }
    Ok(())
}
