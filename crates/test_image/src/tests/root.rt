use cv_base::{Content, Node, RelPath, Seq, Tree, TreeEntry};
use cv_overlay::{OverlayError, Root, TreeFault};
use std::alloc::Global;
use std::test::Fail;

/// The entry of a path, which has `/` after a directory and `?` after what is neither a directory nor a file.
fn entry(alloc: Global, row: &str) -> Result<TreeEntry, Fail> {
    let (text, node) = match (row.strip_suffix('/'), row.strip_suffix('?')) {
        (Some(text), _) => (text, Node::Dir),
        (None, Some(text)) => (text, Node::Other),
        (None, None) => (row, Node::File(Content::Unread)),
    };
    let path = RelPath::read(alloc, text)?;
    Ok(TreeEntry { path, node })
}

/// A tree from one line: its paths.
fn tree(alloc: Global, rows: &str) -> Result<Tree, Fail> {
    let mut entries = Vec::new(alloc);
    for row in rows.split_whitespace() {
        entries.push(entry(alloc, row)?)?;
    }
    Ok(Tree {
        entries: Seq::of(entries),
    })
}

/// A root as one line: its paths, written as those of a tree.
fn line(alloc: Global, root: &Root) -> Result<String, Fail> {
    let mut all = String::new(alloc);
    for entry in root.entries() {
        all.push_str(entry.path.text())?;
        all.push_str(match root.get(&entry.path) {
            Some(Node::Dir) => "/ ",
            Some(Node::File(_)) => " ",
            Some(Node::Other) => "? ",
            None => " is missing ",
        })?;
    }
    Ok(all)
}

const EMPTY: &str = "";

const BASE: &str = "etc/ etc/os-release? var/ var/lib/ var/lib/status";

const HIDDEN: &str = "var/ var/lib/ var/lib/.wh.status";

const REPLACED: &str = "var/ var/lib/ var/lib/.wh.status var/lib/status?";

const MODULES: &str =
    "app/ app/node_modules/ app/node_modules/x/ app/node_modules/x/package.json srv/ srv/package.json";

const OPAQUE: &str = "app/ app/node_modules/ app/node_modules/.wh..wh..opq";

const ONE_FILE: &str = "app";

const BAD: &str = "etc etc/x";

/// Lays layers on an empty root, up to one for which memory runs out, and returns what came of the last one.
fn lay_all(
    alloc: Global,
    root: &mut Root,
    layers: &[&str],
) -> Result<Result<(), OverlayError>, Fail> {
    let mut last = Ok(());
    for layer in layers {
        last = root.lay(alloc, &tree(alloc, layer)?);
        if last == Err(OverlayError::NoMemory) {
            break;
        }
    }
    Ok(last)
}

#[test]
fn layers_are_laid_one_on_the_other(rt: HostRuntime) -> Result<(), Fail> {
    let alloc = rt.alloc();
    let good = "etc/ etc/os-release? var/ var/lib/ var/lib/status ";
    let bad = Err(OverlayError::BadTree(TreeFault::NoParent(1)));
    let cases: [(&str, [&str; 3], Result<(), OverlayError>, &str); 7] = [
        ("one layer", [EMPTY, EMPTY, BASE], Ok(()), good),
        (
            "a whiteout hides a lower file",
            [BASE, EMPTY, HIDDEN],
            Ok(()),
            "etc/ etc/os-release? var/ var/lib/ ",
        ),
        ("until it comes again", [BASE, HIDDEN, BASE], Ok(()), good),
        (
            "a whiteout does not hide its own layer",
            [BASE, EMPTY, REPLACED],
            Ok(()),
            "etc/ etc/os-release? var/ var/lib/ var/lib/status? ",
        ),
        (
            "an opaque mark hides what lies in the folders of its directory",
            [MODULES, EMPTY, OPAQUE],
            Ok(()),
            "app/ app/node_modules/ srv/ srv/package.json ",
        ),
        (
            "a file hides what lies below its path",
            [MODULES, EMPTY, ONE_FILE],
            Ok(()),
            "app srv/ srv/package.json ",
        ),
        ("a bad tree leaves the root", [BASE, EMPTY, BAD], bad, good),
    ];
    for (what, layers, last, want) in cases {
        let mut root = Root::empty(alloc);
        assert_eq!(rt; lay_all(alloc, &mut root, &layers)?, last, "{what}");
        assert_eq!(rt; line(alloc, &root)?.as_str(), want, "{what}");
    }
    Ok(())
}
