use cv_apkdb::ApkPackage;
use cv_base::{FileBad, RelPath, Seq};
use cv_dpkg::DebPackage;
use cv_npm::NpmPackage;
use cv_osrel::OsName;
use cv_pypi::PypiPackage;

/// What a package file has. It depends on the file's place and its bytes, and not on the system.
#[derive(Clone, Debug, PartialEq, Eq, Drop)]
pub enum Found {
    /// The installed packages of a status file of dpkg.
    Status(Seq<DebPackage>),
    /// The packages of apk's installed database.
    Installed(Seq<ApkPackage>),
    /// The system that an os-release names.
    Os(OsName),
    /// The package of a package.json, if it names one.
    Npm(Option<NpmPackage>),
    /// The package of the metadata of an installed Python package, if it names one.
    Pypi(Option<PypiPackage>),
    /// The first bad line, for which the file is refused.
    Bad(FileBad),
    /// The file has more bytes than a package file may have.
    TooLarge,
}

/// A package file with what it has.
#[derive(Clone, Debug, PartialEq, Eq, Drop)]
pub struct FileFound {
    pub path: RelPath,
    pub found: Found,
}
