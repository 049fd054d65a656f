use cv_base::{Content, NoMemory, Node, RelPath, Seq, Tree, TreeEntry};
use cv_overlay::Root;
use std::alloc::Global;

const LAYERS: u32 = 10;

/// How many entries a folder has, itself among them.
const FOLDER: u32 = 100;

/// How far the names of files move from one layer to the next.
const STEP: u64 = 13;

/// Lays ten layers of this number of entries on each other, and counts the entries of the root. Of each layer's entries that number is
/// whiteouts of files of the layer below.
pub fn lay_layers(alloc: Global, entries: u64, whiteouts: u64) -> Result<u64, NoMemory> {
    let entries = u32::try_from(entries).unwrap_or(u32::MAX);
    let whiteouts = u32::try_from(whiteouts).unwrap_or(u32::MAX);
    let mut root = Root::empty(alloc);
    for layer in 0..LAYERS {
        let tree = layer_of(alloc, layer, entries, whiteouts)?;
        if root.lay(alloc, &tree).is_err() {
            return Err(NoMemory);
        }
    }
    Ok(root.entries().len() as u64)
}

/// Folders, and in each first whiteouts and then files.
fn layer_of(alloc: Global, layer: u32, entries: u32, whiteouts: u32) -> Result<Tree, NoMemory> {
    let folders = (entries / FOLDER).max(1);
    let whiteouts_of_folder = (whiteouts / folders).min(FOLDER - 1);
    let mut tree = Vec::new(alloc);
    for number in 0..folders {
        tree.push(folder(alloc, number)?)?;
        for name in 0..whiteouts_of_folder {
            tree.push(file(alloc, number, ".wh.f", layer.max(1) - 1, name)?)?;
        }
        for name in 0..FOLDER - 1 - whiteouts_of_folder {
            tree.push(file(alloc, number, "f", layer, name)?)?;
        }
    }
    Ok(Tree {
        entries: Seq::of(tree),
    })
}

fn file(
    alloc: Global,
    folder: u32,
    kind: &str,
    layer: u32,
    name: u32,
) -> Result<TreeEntry, NoMemory> {
    let moved = u64::from(name) + STEP * u64::from(layer);
    let text = format!(in alloc; "d{folder:010}/{kind}{moved:010}")?;
    let path = path(alloc, text.as_str())?;
    let node = Node::File(Content::Unread);
    Ok(TreeEntry { path, node })
}

fn folder(alloc: Global, folder: u32) -> Result<TreeEntry, NoMemory> {
    let text = format!(in alloc; "d{folder:010}")?;
    let path = path(alloc, text.as_str())?;
    let node = Node::Dir;
    Ok(TreeEntry { path, node })
}

fn path(alloc: Global, text: &str) -> Result<RelPath, NoMemory> {
    match RelPath::read(alloc, text) {
        Ok(path) => Ok(path),
        Err(_) => Err(NoMemory),
    }
}
