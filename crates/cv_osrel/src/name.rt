use cv_base::Text;

/// The system that os-release names. `read_os` gives neither an empty id nor an empty version.
#[derive(Clone, Debug, PartialEq, Eq, PartialOrd, Ord, Drop)]
pub struct OsName {
    pub id: Text,
    pub version: Option<Text>,
}
