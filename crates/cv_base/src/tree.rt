use cv_path::RelPath;
use cv_seq::Seq;

/// What stands at a path of a layer. A link or any special file is `Other`.
#[derive(Clone, Copy, Debug, PartialEq, Eq, PartialOrd, Ord)]
pub enum Kind {
    Dir,
    File,
    Other,
}

/// An entry of a layer's listing. `size` is the number of bytes of a file, and 0 for all else.
#[derive(Clone, Debug, PartialEq, Eq, PartialOrd, Ord, Drop)]
pub struct ListEntry {
    pub path: RelPath,
    pub kind: Kind,
    pub size: u64,
}

/// What is known of a file: its bytes, that it is above the limit for package files, or nothing, since it is at no
/// place of package files.
#[derive(Clone, Debug, PartialEq, Eq, Drop)]
pub enum Content {
    Bytes(Seq<u8>),
    TooLarge,
    Unread,
}

/// What stands at a path, with what is known of a file.
#[derive(Clone, Debug, PartialEq, Eq, Drop)]
pub enum Node {
    Dir,
    File(Content),
    Other,
}

/// A path of a layer, and what stands there.
#[derive(Clone, Debug, PartialEq, Eq, Drop)]
pub struct TreeEntry {
    pub path: RelPath,
    pub node: Node,
}

/// A layer, as the list of its entries.
#[derive(Clone, Debug, PartialEq, Eq, Drop)]
pub struct Tree {
    pub entries: Seq<TreeEntry>,
}
