/// A place of a package file.
#[derive(Clone, Copy, Debug, PartialEq, Eq, PartialOrd, Ord)]
pub enum Place {
    /// `var/lib/dpkg/status` (dpkg(1), FILES).
    Status,
    /// A file of `var/lib/dpkg/status.d/` other than a list of checksums, as images without dpkg have them.
    StatusFolder,
    /// `lib/apk/db/installed` (apk(8)).
    Installed,
    /// `usr/lib/apk/db/installed` (apk(8)).
    UsrInstalled,
    /// `etc/os-release` (os-release(5)).
    Os,
    /// `usr/lib/os-release` (os-release(5)).
    UsrOs,
    /// The `package.json` of a package below a folder `node_modules` (npm's folders).
    Npm,
    /// The metadata of an installed Python package: `METADATA` in a folder `<name>.dist-info` (Python packaging user guide,
    /// "Recording installed projects"), or `PKG-INFO` in a folder `<name>.egg-info`.
    Pypi,
}
