use cv_base::{Digest, NoMemory, Package, PackageKind, RelPath, Text};
use cv_sbom::{ListError, ListWhat, read_list, write_list};
use std::alloc::Global;
use std::test::Fail;

const IMAGE: &str = "sha256:1111111111111111111111111111111111111111111111111111111111111111";

/// A package of Debian 12 with this name.
fn package(alloc: Global, name: &str, arch: &str) -> Result<Package, Fail> {
    Ok(Package {
        kind: PackageKind::Deb,
        path: RelPath::read(alloc, "var/lib/dpkg/status")?,
        name: Text::of(alloc, name)?,
        version: Text::of(alloc, "3.0.9-1+b1")?,
        source: Text::of(alloc, "openssl")?,
        source_version: Text::of(alloc, "3.0.9-1")?,
        arch: Text::of(alloc, arch)?,
        ecosystem: Text::of(alloc, "Debian:12")?,
    })
}

#[test]
fn a_list_is_one_line(rt: HostRuntime) -> Result<(), Fail> {
    let image = Digest::read(IMAGE.as_bytes())?;
    let packages = vec![in rt.alloc(); package(rt.alloc(), "libssl3", "amd64")?]?;
    let text = write_list(rt.alloc(), &image, &packages)?;
    assert_eq!(rt;
        text.as_str(),
        r#"{"bomFormat":"CycloneDX","components":[{"name":"libssl3","properties":[{"name":"cvwatch:arch","value":"amd64"},{"name":"cvwatch:ecosystem","value":"Debian:12"},{"name":"cvwatch:kind","value":"deb"},{"name":"cvwatch:path","value":"var/lib/dpkg/status"},{"name":"cvwatch:source","value":"openssl"},{"name":"cvwatch:source_version","value":"3.0.9-1"}],"type":"library","version":"3.0.9-1+b1"}],"metadata":{"component":{"name":"sha256:1111111111111111111111111111111111111111111111111111111111111111","type":"container"}},"specVersion":"1.5","version":1}"#
    );
    Ok(())
}

#[test]
fn a_list_is_read_back_in_order(rt: HostRuntime) -> Result<(), Fail> {
    let image = Digest::read(IMAGE.as_bytes())?;
    let mut packages = Vec::new(rt.alloc());
    for (name, arch) in [
        ("zlib1g", "amd64"),
        ("a\"\\\u{1}\u{e9}", ""),
        ("zlib1g", "amd64"),
    ] {
        packages.push(package(rt.alloc(), name, arch)?)?;
    }
    let text = write_list(rt.alloc(), &image, &packages)?;
    let list = read_list(rt.alloc(), text.as_str().as_bytes())?;
    assert_eq!(rt; list.image, Some(image));
    assert_eq!(rt; list.skipped, 0);
    let accented = package(rt.alloc(), "a\"\\\u{1}\u{e9}", "")?;
    let zlib = package(rt.alloc(), "zlib1g", "amd64")?;
    let want = vec![in rt.alloc(); accented, zlib]?;
    assert_eq!(rt; list.packages.as_slice(), want.as_slice());
    Ok(())
}

#[test]
fn the_first_fault_of_a_list_is_the_answer(rt: HostRuntime) {
    for (want, line) in [
        (ListError::BadJson, b"".as_slice()),
        (
            ListError::BadJson,
            b"{\"bomFormat\":\"CycloneDX\"".as_slice(),
        ),
        (ListError::BadJson, b"{\"bomFormat\":\"\xff\"}".as_slice()),
        (ListError::BadList(ListWhat::NotObject), b"[{}]".as_slice()),
        (ListError::BadList(ListWhat::NotObject), b"null".as_slice()),
        (ListError::BadList(ListWhat::BadFormat), b"{}".as_slice()),
        (
            ListError::BadList(ListWhat::BadFormat),
            b"{\"bomFormat\":null}".as_slice(),
        ),
        (
            ListError::BadList(ListWhat::BadFormat),
            b"{\"bomFormat\":\"cyclonedx\",\"components\":0}".as_slice(),
        ),
        (
            ListError::BadList(ListWhat::BadComponents),
            b"{\"bomFormat\":\"CycloneDX\",\"components\":null}".as_slice(),
        ),
        (
            ListError::BadList(ListWhat::BadComponents),
            b"{\"bomFormat\":\"CycloneDX\",\"components\":{}}".as_slice(),
        ),
    ] {
        match read_list(rt.alloc(), line) {
            Ok(_) => assert!(rt; false, "{line:?}"),
            Err(error) => assert_eq!(rt; error, want, "{line:?}"),
        }
    }
}

/// A list as another tool writes it: nested components, licenses, hashes, purl and properties of its own.
const FOREIGN: &str =
    r#"{"$schema":"http://cyclonedx.org/schema/bom-1.6.schema.json","bomFormat":"CycloneDX","specVersion":"1.6","version":1,"serialNumber":"urn:uuid:3e671687-395b-41f5-a30f-a58921a69b79","metadata":{"timestamp":"2024-05-01T00:00:00Z","component":{"bom-ref":"img","type":"container","name":"debian:12"}},"components":[{"bom-ref":"a","type":"library","name":"curl","version":"7.88.1-10","purl":"pkg:deb/debian/curl@7.88.1-10?arch=amd64","licenses":[{"license":{"id":"curl"}}],"hashes":[{"alg":"SHA-256","content":"00"}],"properties":[{"name":"tool:layer","value":"1"}],"components":[{"type":"file","name":"bin/curl"}]},{"type":"operating-system","name":"debian","version":"12"},7],"dependencies":[{"ref":"a","dependsOn":[]}]}"#;

#[test]
fn components_of_other_tools_are_skipped(rt: HostRuntime) -> Result<(), Fail> {
    let list = read_list(rt.alloc(), FOREIGN.as_bytes())?;
    assert_eq!(rt; list.image, None);
    assert_eq!(rt; list.packages.as_slice().len(), 0);
    assert_eq!(rt; list.skipped, 3);
    Ok(())
}

#[test]
fn out_of_memory_is_no_fault_of_the_line(rt: HostRuntime) {
    assert_eq!(rt; ListError::from(NoMemory), ListError::NoMemory);
}
