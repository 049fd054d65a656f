use cv_base::Text;
use cv_osrel::{OsName, read_os};
use std::alloc::Global;
use std::test::Fail;

fn sent<T: Send + Sync>(value: T) -> T {
    value
}

fn name(alloc: Global, id: &str, version: Option<&str>) -> Result<OsName, Fail> {
    let id = Text::of(alloc, id)?;
    let version = match version {
        Some(version) => Some(Text::of(alloc, version)?),
        None => None,
    };
    Ok(sent(OsName { id, version }))
}

#[test]
fn the_last_assignments_of_id_and_version_id_count(rt: HostRuntime) -> Result<(), Fail> {
    let alloc = rt.alloc();
    for (text, id, version) in [
        (
            b"PRETTY_NAME=\"Debian GNU/Linux 12 (bookworm)\"\nVERSION_ID=\"12\"\nID=debian\nHOME_URL=\"https://www.debian.org/\"\n".as_slice(),
            "debian",
            Some("12"),
        ),
        // A last line without LF, lines that end in CR LF, comments, and blanks at both ends of a line.
        (b"#ID=b\r\n\r\t ID=a \t\r\n VERSION_ID='1' ", "a", Some("1")),
        // Single quotes have no escapes, and double quotes have four.
        (
            b"ID=\"a'\\\"\\$\\\\\\`b\"\nVERSION_ID='\\$\"\\\\'\n",
            "a'\"$\\`b",
            Some("\\$\"\\\\"),
        ),
        // An empty value is as an absent one.
        (b"ID=a\nVERSION_ID=1\nID=\nVERSION_ID=''\n", "linux", None),
        // Each of these lines is no assignment of ID.
        (
            b"ID=a\nID= b\nID =b\nID=b c\nID=b\\c\nID=b'\nID\n=b\nexport ID=b\nid=b\nID=\"b\nID=\"b\"c\nID=\"b\\\"\n",
            "a",
            None,
        ),
        // A line that is not UTF-8.
        (b"ID=a\nID=\xff\n", "a", None),
    ] {
        let want = name(alloc, id, version)?;
        assert_eq!(rt; read_os(alloc, text), Ok(want), "{text:?}");
    }
    Ok(())
}
