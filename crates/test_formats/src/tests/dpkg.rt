use cv_base::{FileBad, ReadBad, Seq, Text, What};
use cv_dpkg::{DebPackage, StatusRule, read_status};
use std::alloc::Global;
use std::test::Fail;

/// The package of this name, version, source, version of the source, and architecture.
fn package(
    alloc: Global,
    [name, version, source, source_version, arch]: [&str; 5],
) -> Result<DebPackage, Fail> {
    Ok(sent(DebPackage {
        name: Text::of(alloc, name)?,
        version: Text::of(alloc, version)?,
        source: Text::of(alloc, source)?,
        source_version: Text::of(alloc, source_version)?,
        arch: Text::of(alloc, arch)?,
    }))
}

fn sent<T: Send + Sync>(value: T) -> T {
    value
}

#[test]
fn packages_are_read_as_the_rules_say(rt: HostRuntime) -> Result<(), Fail> {
    let alloc = rt.alloc();
    for (text, want) in [
        // An ordinary paragraph, and one that is half installed.
        (
            "Package: libc6\nStatus: install ok installed\nPriority: optional\nSection: libs\nInstalled-Size: 12986\nMaintainer: A B <a@example.org>\nArchitecture: amd64\nMulti-Arch: same\nSource: glibc\nVersion: 2.36-9+deb12u4\nDepends: libgcc-s1\nConffiles:\n /etc/x.conf 00ff\nDescription: C library\n Text.\n .\n More.\n\nPackage: half\nStatus: install reinstreq half-installed\n\n",
            [
                "libc6",
                "2.36-9+deb12u4",
                "glibc",
                "2.36-9+deb12u4",
                "amd64",
            ],
        ),
        // Names in any case, CRs and blanks at both ends, and no LF at the end.
        (
            "\n \t\r\nPACKAGE:a\r\nversion:\t 1 \t\r\nSource: b(2)\r\nstatus:  install\tok  installed",
            ["a", "1", "b", "2", ""],
        ),
        // Continuation lines of used fields, and the values of unused ones.
        (
            "Package: a\n x\nVersion: 1\n 2\nSource: b  (2)\n\t(3)\nStatus: a b unpacked\n x y z\nX: \x7f(\n",
            ["a", "1", "b", "2", ""],
        ),
        // Configuration that remains, and an empty Source.
        (
            "Package: d\nStatus: deinstall ok config-files\nVersion: 9\n\nPackage: a\nVersion: 1\nStatus: hold ok triggers-awaited\nSource:",
            ["a", "1", "a", "1", ""],
        ),
    ] {
        let want = Seq::of(vec![in alloc; package(alloc, want)?]?);
        let packages = read_status(alloc, text.as_bytes(), StatusRule::Needed);
        assert_eq!(rt; packages, Ok(want), "{text}");
    }
    Ok(())
}

#[test]
fn a_paragraph_may_lack_its_status_if_it_is_optional(rt: HostRuntime) -> Result<(), Fail> {
    let alloc = rt.alloc();
    let want = Seq::of(vec![in alloc; package(alloc, ["base", "1", "base", "1", ""])?]?);
    let text = b"Package: base\nVersion: 1\n";
    assert_eq!(rt; read_status(alloc, text, StatusRule::Optional), Ok(want));
    Ok(())
}

#[test]
fn a_package_that_is_not_installed_needs_no_version(rt: HostRuntime) -> Result<(), Fail> {
    let alloc = rt.alloc();
    let text = b"Package: old\nStatus: unknown ok not-installed\n";
    let packages = read_status(alloc, text, StatusRule::Needed);
    assert_eq!(rt; packages, Ok(Seq::of(Vec::new(alloc))));
    Ok(())
}

#[test]
fn the_fault_of_the_least_faulty_line_is_named(rt: HostRuntime) -> Result<(), Fail> {
    let alloc = rt.alloc();
    for (line, what, text) in [
        (1, What::LooseContinuation, " x\nx\n"),
        (2, What::NoColon, "A: x\n-A\n"),
        (1, What::BadField, "a b: x\nx\n"),
        (2, What::RepeatedField, "A: x\na: y\nx\n"),
        (1, What::BadStatus, "Status: install ok Installed\nx\n"),
        (2, What::BadValue, "Version: 1\nArchitecture: a b"),
        (1, What::BadValue, "Source: a (1) b\n"),
        (2, What::NoPackage, "Version: 1\n x\n\nx\n"),
        (2, What::BadStatus, "Package: base\nVersion: 1\n"),
        (2, What::BadStatus, "Package: a\nVersion: 1\n\nx\n"),
        (
            2,
            What::NoVersion,
            "Package: old\nStatus: install ok installed\n",
        ),
        (2, What::NoVersion, "Package: a\nStatus: a b unpacked\n\nx"),
    ] {
        let packages = read_status(alloc, text.as_bytes(), StatusRule::Needed);
        let bad = FileBad { line, what };
        assert_eq!(rt; packages, Err(ReadBad::Bad(bad)), "{text}");
    }
    Ok(())
}
