use cv_apkdb::{ApkPackage, read_installed};
use cv_base::{FileBad, ReadBad, Seq, Text, What};
use std::alloc::Global;
use std::test::Fail;

fn sent<T: Send + Sync>(value: T) -> T {
    value
}

/// The package of this name, version, architecture and origin.
fn package(alloc: Global, texts: [&str; 4]) -> Result<ApkPackage, Fail> {
    let [name, version, arch, origin] = texts;
    Ok(sent(ApkPackage {
        name: Text::of(alloc, name)?,
        version: Text::of(alloc, version)?,
        arch: Text::of(alloc, arch)?,
        origin: Text::of(alloc, origin)?,
    }))
}

#[test]
fn packages_are_read_as_the_rules_say(rt: HostRuntime) -> Result<(), Fail> {
    let alloc = rt.alloc();
    for (text, want, what) in [
        (
            "C:Q1AA=\nP:musl\nV:1.2.4-r1\nA:x86_64\nS:383459\nI:622592\nT:the C library\nU:https://musl.libc.org/\nL:MIT\no:musl\nm:A B <a@b.org>\nt:1699267459\np:so:libc.so.1=1\nF:lib\nR:libc.so.1\na:0:0:755\nZ:Q1AA=\nR:x\n\n",
            ["musl", "1.2.4-r1", "x86_64", "musl"],
            "an ordinary package, with letters that are not used, some of them twice",
        ),
        (
            "\n\no:c\nA:b\nV:1\nP:a",
            ["a", "1", "b", "c"],
            "letters in any order, several empty lines, and no LF at the end",
        ),
        (
            "P:a:b\nV:1\nA:\no:\nO:x\n\n\n",
            ["a:b", "1", "", "a:b"],
            "an empty architecture, and an empty origin, which is the name",
        ),
    ] {
        let want = Seq::of(vec![in alloc; package(alloc, want)?]?);
        assert_eq!(rt; read_installed(alloc, text.as_bytes()), Ok(want), "{what}");
    }
    Ok(())
}

#[test]
fn packages_stand_in_the_order_of_the_file(rt: HostRuntime) -> Result<(), Fail> {
    let alloc = rt.alloc();
    let b = package(alloc, ["b", "1", "", "b"])?;
    let a = package(alloc, ["a", "2", "x", "o"])?;
    let text = b"P:b\nV:1\n\n\nP:a\nV:2\nA:x\no:o\n";
    assert_eq!(rt;
        read_installed(alloc, text),
        Ok(Seq::of(vec![in alloc; b, a]?))
    );
    Ok(())
}

#[test]
fn the_fault_of_the_least_faulty_line_is_named(rt: HostRuntime) -> Result<(), Fail> {
    let alloc = rt.alloc();
    for (text, line, what) in [
        ("P:a\nx\nP:b\n", 2, What::NoColon),
        ("P:a\nV:1\n\nP:a\nV:1\nA:\nA:", 7, What::Repeated),
        ("P:\nP:a\n", 1, What::BadValue),
        ("P:a\nV:1\no:\u{7f}", 3, What::BadValue),
        ("V:1\n\nx\n", 1, What::NoName),
        ("P:a\nV:1\n\nP:a\nX:y", 5, What::NoVersion),
        ("X:y\nx\n", 2, What::NoColon),
    ] {
        let bad = Err(ReadBad::Bad(FileBad { line, what }));
        assert_eq!(rt; read_installed(alloc, text.as_bytes()), bad, "{text}");
    }
    Ok(())
}
