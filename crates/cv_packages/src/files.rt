ghost use Rattle.std.specs.Prelude.{◌≡◌, IfOk};
ghost use Rattle.cv_packages.specs.Files.{file_found, files_found};

use crate::found::FileFound;
use crate::read::read_file;
use cv_base::{NoMemory, Node, TreeEntry, place};
use cv_seq::push_some;
use std::alloc::Global;

/// The package files of a root, whose entries stand in the order of their paths.
pub fn read_files(alloc: Global, entries: &[TreeEntry]) -> Result<Vec<FileFound>, NoMemory>
    ensures { IfOk result (λ files. files.items ≡ files_found entries.now) }
{
    let mut files = Vec::new(alloc);
    for entry in entries {
        let file = file_found(alloc, entry)?;
        push_some(&mut files, file)?;
    }
    Ok(files)
}

/// The package file that an entry is, if it is one.
fn file_found(alloc: Global, entry: &TreeEntry) -> Result<Option<FileFound>, NoMemory>
    ensures { IfOk result (λ file. file ≡ file_found entry.now) }
{
    let Some(place) = place(&entry.path) else {
        return Ok(None);
    };
    match &entry.node {
        Node::File(content) => Ok(Some(FileFound {
            path: entry.path.clone()?,
            found: read_file(alloc, place, content)?,
        })),
        Node::Dir | Node::Other => Ok(None),
    }
}
