use cv_base::{PackageKind, Text};
use cv_osrel::{OsName, ecosystem};
use std::test::Fail;

#[test]
fn ecosystems_have_the_form_of_osv(rt: HostRuntime) -> Result<(), Fail> {
    let alloc = rt.alloc();
    for (id, version, want) in [
        ("debian", Some("12"), "Debian:12"),
        ("alpine", Some("3.18.4"), "Alpine:v3.18"),
        ("alpine", Some("3.20_alpha20240329"), "Alpine:v3.20"),
        ("alpine", Some("edge"), "Alpine"),
        ("ubuntu", Some("22.04"), "ubuntu:22.04"),
        ("arch", None, "arch"),
    ] {
        let version = match version {
            Some(version) => Some(Text::of(alloc, version)?),
            None => None,
        };
        let id = Text::of(alloc, id)?;
        let os = OsName { id, version };
        let deb = ecosystem(alloc, Some(&os), PackageKind::Deb)?;
        let pypi = ecosystem(alloc, Some(&os), PackageKind::Pypi)?;
        assert_eq!(rt; (deb.as_str(), pypi.as_str()), (want, "PyPI"), "{want}");
    }
    let none = ecosystem(alloc, None, PackageKind::Apk)?;
    let npm = ecosystem(alloc, None, PackageKind::Npm)?;
    let pypi = ecosystem(alloc, None, PackageKind::Pypi)?;
    let found = (none.as_str(), npm.as_str(), pypi.as_str());
    assert_eq!(rt; found, ("unknown", "npm", "PyPI"));
    Ok(())
}
