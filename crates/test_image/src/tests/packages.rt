use cv_base::{Content, Node, Place, RelPath, Seq, TreeEntry, What};
use cv_packages::{FileFault, FileFound, Found, PackagesError, assemble, read_file, read_packages};
use std::alloc::Global;
use std::test::Fail;

/// A value that threads may share.
fn shared<T: Send + Sync>(value: T) -> T {
    value
}

fn content(alloc: Global, text: &str) -> Result<Content, Fail> {
    let bytes = Vec::from_slice(alloc, text.as_bytes())?;
    Ok(Content::Bytes(Seq::of(bytes)))
}

fn file(alloc: Global, path: &str, text: &str) -> Result<TreeEntry, Fail> {
    Ok(TreeEntry {
        path: RelPath::read(alloc, path)?,
        node: Node::File(content(alloc, text)?),
    })
}

#[test]
fn packages_of_a_root_have_its_system(rt: HostRuntime) -> Result<(), Fail> {
    let alloc = rt.alloc();
    let status = "Package: zlib\nStatus: install ok installed\nVersion: 1\n";
    let root = vec![in alloc;
        file(alloc, "etc/os-release", "ID=debian\nVERSION_ID=12\n")?,
        file(alloc, "usr/lib/os-release", "ID=alpine\n")?,
        file(alloc, "var/lib/dpkg/status", status)?,
    ]?;
    let packages = shared(read_packages(alloc, &root)?);
    let [first] = packages.as_slice() else {
        return Err(Fail::from("there is one package"));
    };
    assert_eq!(rt; first.name.as_str(), "zlib");
    assert_eq!(rt; first.ecosystem.as_str(), "Debian:12");
    Ok(())
}

#[test]
fn threads_may_share_what_a_file_has(rt: HostRuntime) -> Result<(), Fail> {
    let alloc = rt.alloc();
    let found = read_file(alloc, Place::Installed, &content(alloc, "P:a\nV:1\nx\n")?)?;
    assert!(rt; matches!(found, Found::Bad(_)));
    let path = RelPath::read(alloc, "lib/apk/db/installed")?;
    let file = shared(FileFound { path, found });
    let bad = FileFault::BadFile {
        path: file.path.clone()?,
        line: 3,
        what: What::NoColon,
    };
    assert_eq!(rt;
        shared(assemble(alloc, &[&file])),
        Err(PackagesError::Refused(bad))
    );
    Ok(())
}
