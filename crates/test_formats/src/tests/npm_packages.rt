use cv_base::Text;
use cv_npm::{NpmPackage, read_package};
use std::test::Fail;

fn sent<T: Send + Sync>(value: T) -> T {
    value
}

#[test]
fn name_and_version_are_read(rt: HostRuntime) -> Result<(), Fail> {
    let alloc = rt.alloc();
    for (text, [name, version]) in [
        // Members in any order, unknown ones, and members of members, which do not count.
        (
            " {\n  \"private\": true,\n  \"version\": \"0.1\",\n  \"dependencies\": {\"name\": \"z\"},\n  \"name\": \"@s/y\"\n}\n",
            ["@s/y", "0.1"],
        ),
        // Escapes, and of a key that stands twice the last one counts.
        (
            "{\"name\":1,\"version\":\"not a version\",\"name\":\"\\u0078\"}",
            ["x", "not a version"],
        ),
    ] {
        let want = sent(NpmPackage {
            name: Text::of(alloc, name)?,
            version: Text::of(alloc, version)?,
        });
        assert_eq!(rt;
            read_package(alloc, text.as_bytes()),
            Ok(Some(want)),
            "{text}"
        );
    }
    Ok(())
}

#[test]
fn other_files_name_no_package(rt: HostRuntime) -> Result<(), Fail> {
    let alloc = rt.alloc();
    for bytes in [
        // No JSON, and no object.
        b"".as_slice(),
        b"{\"name\":\"x\",\"version\":\"1\"}}",
        b"[{\"name\":\"x\",\"version\":\"1\"}]",
        // A member that is absent, empty, or no text, also if an earlier one with its key is.
        b"{\"Name\":\"x\",\"version\":\"1\"}",
        b"{\"name\":\"x\",\"version\":\"\"}",
        b"{\"name\":\"x\",\"version\":\"1\",\"version\":1}",
        // No UTF-8.
        b"{\"name\":\"x\xff\",\"version\":\"1\"}",
    ] {
        assert_eq!(rt; read_package(alloc, bytes), Ok(None), "{bytes:?}");
    }
    Ok(())
}
