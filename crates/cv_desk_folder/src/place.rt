ghost use Rattle.std.specs.Prelude.{◌≡◌, ◌++◌, string_bytes, IfOk};
ghost use Rattle.cv_base.specs.Path.{path_text};
ghost use Rattle.cv_desk_folder.specs.Folder.{folder_text};
ghost use Rattle.cv_desk_folder.specs.code.Walked.{joined};

use cv_base::{Digest, NoMemory, RelPath};
use std::alloc::Global;

/// The folder of a layer.
pub fn folder_of(alloc: Global, layer: &Digest) -> Result<String, NoMemory>
    ensures { IfOk result (λ folder. string_bytes folder ≡ folder_text layer.now) }
{
    let mut folder = String::from_str(alloc, "layers/sha256/")?;
    folder.push_str(hex::encode(alloc, layer.bytes())?.as_str())?;
    Ok(folder)
}

/// The path of a layer's entry below the working directory.
pub fn place_of(alloc: Global, layer: &Digest, path: &RelPath) -> Result<String, NoMemory>
    ensures { IfOk result (λ place. string_bytes place ≡ joined (folder_text layer.now) (path_text path.now)) }
{
    let folder = folder_of(alloc, layer)?;
    joined(alloc, folder.as_str(), path.text())
}

/// Two parts of a path with a slash between them; an empty part adds nothing.
pub fn joined(alloc: Global, front: &str, back: &str) -> Result<String, NoMemory>
    ensures { IfOk result (λ path. string_bytes path ≡ joined front.now back.now) }
{
    let mut path = String::from_str(alloc, front)?;
    if !front.is_empty() && !back.is_empty() {
        path.push('/')?;
    }
    path.push_str(back)?;
    Ok(path)
}
