ghost use Rattle.std.specs.Prelude.{◌≡◌, List};
ghost use Rattle.cv_base.specs.Path.{Path};
ghost use Rattle.cv_base.specs.declared.tree.TreeEntry.{TreeEntry};
ghost use Rattle.cv_overlay.specs.Lay.{node_at, root_of};
ghost use Rattle.cv_overlay.specs.Ascending.{AreAscending};
ghost use Rattle.cv_scan.specs.Root.{root_entries};

/// The rule of the entries of an image's root: at each path they have what the layers make of it, `nodes`, and their paths
/// strictly ascend, `ascending`.
pub fn root_laws()
    ensures nodes { (trees : List (List TreeEntry)) (path : Path) → node_at (root_entries trees) path ≡ root_of trees path }
    ensures ascending { (trees : List (List TreeEntry)) → AreAscending (root_entries trees) }
{}
