use cv_base::Text;

/// An installed binary package. Without a field Source the source has the package's own name and version.
#[derive(Clone, Debug, PartialEq, Eq, PartialOrd, Ord, Drop)]
pub struct DebPackage {
    pub name: Text,
    pub version: Text,
    pub source: Text,
    pub source_version: Text,
    /// The empty text if there is none.
    pub arch: Text,
}
