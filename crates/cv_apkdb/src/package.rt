use cv_base::Text;

/// An installed package of apk.
#[derive(Clone, Debug, PartialEq, Eq, PartialOrd, Ord, Drop)]
pub struct ApkPackage {
    pub name: Text,
    pub version: Text,
    /// The empty text if there is none.
    pub arch: Text,
    /// The package from whose build it came, which is its own name if no other is given.
    pub origin: Text,
}
