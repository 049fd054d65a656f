use cv_base::{PackageName, Seq, Text};
use cv_match_range::{ApkVersion, DebVersion, Placed, PypiVersion, SemanticVersion};

/// An affected entry of an advisory with its versions read. A range in which nothing can lie has no events.
#[derive(Drop)]
pub(crate) struct PreparedEntry<V> {
    pub package: Option<PackageName>,
    pub ranges: Seq<Option<Seq<Placed<V>>>>,
    pub versions: Seq<Text>,
}

/// The entries of an advisory, read for one kind of package.
#[derive(Drop)]
pub(crate) enum PreparedEntries {
    Deb(Seq<PreparedEntry<DebVersion>>),
    Apk(Seq<PreparedEntry<ApkVersion>>),
    Npm(Seq<PreparedEntry<SemanticVersion>>),
    Pypi(Seq<PreparedEntry<PypiVersion>>),
}

/// The version of a package, read for its kind: `None` if the text is not a valid version.
#[derive(Drop)]
pub(crate) enum PreparedVersion {
    Deb(Option<DebVersion>),
    Apk(Option<ApkVersion>),
    Npm(Option<SemanticVersion>),
    Pypi(Option<PypiVersion>),
}
