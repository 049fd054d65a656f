use cv_path::RelPath;
use cv_seq::Text;

/// Which package manager a package is from, and so which order its versions have.
#[derive(Clone, Copy, Debug, PartialEq, Eq, PartialOrd, Ord)]
pub enum PackageKind {
    Deb,
    Apk,
    Npm,
    Pypi,
}

/// An installed package. `path` is the package file that names it. `source` and `source_version` are those of the
/// source package from which it was built, and its own if none is named. Packages are ordered by these fields, the
/// first one first.
#[derive(Clone, Debug, PartialEq, Eq, PartialOrd, Ord, Drop)]
pub struct Package {
    pub kind: PackageKind,
    pub path: RelPath,
    pub name: Text,
    pub version: Text,
    pub source: Text,
    pub source_version: Text,
    pub arch: Text,
    pub ecosystem: Text,
}

/// A package as an advisory names it. The ecosystem has the form of OSV, as `Debian:12`.
#[derive(Clone, Debug, PartialEq, Eq, PartialOrd, Ord, Drop)]
pub struct PackageName {
    pub ecosystem: Text,
    pub name: Text,
}
