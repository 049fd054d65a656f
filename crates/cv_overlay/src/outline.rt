ghost use Rattle.std.specs.Prelude.{◌≡◌};

use cv_base::{Kind, ListEntry, Node, RelPath, TreeEntry};

/// An entry of a listing or of a tree, seen as its path and whether it is a directory.
pub trait Outlined {
    ghost use Rattle.cv_overlay.specs.Mark.{Outline};

    ghost outline: { Self → Outline };

    fn path(&self) -> &RelPath
        ensures { result.now ≡ (outline self.now).path };

    fn is_dir(&self) -> bool
        ensures { result ≡ (outline self.now).is_dir };
}

impl Outlined for ListEntry {
    ghost use Rattle.cv_overlay.specs.Mark.{listed};

    ghost outline = { listed };

    fn path(&self) -> &RelPath {
        &self.path
    }

    fn is_dir(&self) -> bool {
        matches!(self.kind, Kind::Dir)
    }
}

impl Outlined for TreeEntry {
    ghost use Rattle.cv_overlay.specs.Mark.{outline};

    ghost outline = { outline };

    fn path(&self) -> &RelPath {
        &self.path
    }

    fn is_dir(&self) -> bool {
        matches!(self.node, Node::Dir)
    }
}
