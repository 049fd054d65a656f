use cv_base::Text;

/// A package of Python. `source` is the name as indexes know it: in lower case, each run of `-`, `_` and `.` as one `-`.
/// `read_metadata` gives no empty text.
#[derive(Clone, Debug, PartialEq, Eq, PartialOrd, Ord, Drop)]
pub struct PypiPackage {
    pub name: Text,
    pub version: Text,
    pub source: Text,
}
