ghost use Rattle.std.specs.Prelude.{◌≡◌, IfOk};

use cv_base::{NoMemory, Package, PackageKind, PathError, RelPath, Text};
use std::alloc::Global;

/// A package that is installed. Its source package has the same version.
#[derive(Clone, Copy)]
pub struct Installed<'a> {
    pub kind: PackageKind,
    pub ecosystem: &'a str,
    pub name: &'a str,
    pub source: &'a str,
    pub version: &'a str,
}

/// The package, by the package file of a path.
pub fn package(alloc: Global, installed: &Installed<'_>, path: RelPath) -> Result<Package, NoMemory>
    ensures kind { IfOk result (λ made. made.kind ≡ installed.now.kind) }
    ensures name { IfOk result (λ made. made.name ≡ installed.now.name.now) }
    ensures version { IfOk result (λ made. made.version ≡ installed.now.version.now) }
{
    let version = Text::of(alloc, installed.version)?;
    Ok(Package {
        kind: installed.kind,
        path,
        name: Text::of(alloc, installed.name)?,
        source: Text::of(alloc, installed.source)?,
        source_version: version.clone()?,
        version,
        arch: Text::of(alloc, "amd64")?,
        ecosystem: Text::of(alloc, installed.ecosystem)?,
    })
}

/// Version 1 of a package of Debian 12, which is its own source.
pub fn debian_package(alloc: Global, name: &str) -> Result<Package, PathError> {
    let installed = Installed {
        kind: PackageKind::Deb,
        ecosystem: "Debian:12",
        name,
        source: name,
        version: "1",
    };
    let path = RelPath::read(alloc, "var/lib/dpkg/status")?;
    Ok(package(alloc, &installed, path)?)
}
