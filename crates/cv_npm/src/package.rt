use cv_base::Text;

/// A package of npm. `read_package` gives no empty text.
#[derive(Clone, Debug, PartialEq, Eq, PartialOrd, Ord, Drop)]
pub struct NpmPackage {
    pub name: Text,
    pub version: Text,
}
