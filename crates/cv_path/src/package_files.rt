ghost use Rattle.std.specs.Prelude.{◌≡◌, ◌≤◌, ◌∷◌, ◌==◌, ◌&&◌, length, codes};
ghost use Rattle.std.specs.List.{ends_with, slice_split};
ghost use Rattle.std.specs.Option.{option_map};
ghost use Rattle.cv_path.specs.Path.{components, is_slash, parent_of, same_path};
ghost use Rattle.cv_path.specs.Place.{
  fixed_places,
  has_ending,
  is_metadata,
  is_npm,
  is_pypi,
  is_scope,
  is_status_file,
  is_status_name,
  names_metadata,
  names_package,
  open_place,
  place_in,
  place_of,
};
ghost use Rattle.cv_path.specs.Texts.{same};
ghost use Rattle.cv_path.specs.code.Cuts.{remaining_len, remaining_parts};

use crate::path::RelPath;
use crate::places::Place;
use crate::text::split_first;

/// The place of package files that a path is, if it is one.
pub fn place(path: &RelPath) -> Option<Place>
    ensures { result ≡ place_of path.now }
{
    match fixed_place(path) {
        Some(place) => Some(place),
        None => open_place(path),
    }
}

/// The places that have one path.
fn fixed_place(path: &RelPath) -> Option<Place>
    ensures { result ≡ place_in fixed_places path.now }
{
    if is_at(path, "var/lib/dpkg/status") {
        Some(Place::Status)
    } else if is_at(path, "lib/apk/db/installed") {
        Some(Place::Installed)
    } else if is_at(path, "usr/lib/apk/db/installed") {
        Some(Place::UsrInstalled)
    } else if is_at(path, "etc/os-release") {
        Some(Place::Os)
    } else if is_at(path, "usr/lib/os-release") {
        Some(Place::UsrOs)
    } else {
        None
    }
}

/// Whether a path has these components.
fn is_at(path: &RelPath, text: &str) -> bool
    ensures { result ≡ same_path path.now (components text.now) }
{
    path.text() == text
}

/// The places that many paths are.
fn open_place(path: &RelPath) -> Option<Place>
    ensures { result ≡ open_place path.now }
{
    if is_status_file(path) {
        Some(Place::StatusFolder)
    } else if is_npm_file(path) {
        Some(Place::Npm)
    } else if is_python_metadata(path) {
        Some(Place::Pypi)
    } else {
        None
    }
}

/// Whether a path lies right in the folder of status files.
fn is_status_file(path: &RelPath) -> bool
    ensures { result ≡ is_status_file path.now }
{
    is_in(path, "var/lib/dpkg/status.d") && is_status_name(path.file_name())
}

/// Whether the directory of a path has these components.
fn is_in(path: &RelPath, text: &str) -> bool
    ensures { result ≡ same_path (parent_of path.now) (components text.now) }
{
    path.parent_text() == text
}

/// Whether a file of that folder is read.
fn is_status_name(name: Option<&str>) -> bool
    ensures { result ≡ is_status_name (option_map (λ text. text.now) name.entry) }
{
    match name {
        Some(name) => !is_list_of_checksums(name.as_bytes()),
        None => false,
    }
}

fn is_list_of_checksums(name: &[u8]) -> bool
    ensures { result ≡ ends_with ◌==◌ name.now (codes ".md5sums") }
{
    name.ends_with(b".md5sums")
}

/// Whether a path is the package.json of a package below a `node_modules`.
fn is_npm_file(path: &RelPath) -> bool
    ensures { result ≡ is_npm path.now }
{
    is_npm(path.text().as_bytes())
}

/// Whether a text ends in the package.json of a package below a `node_modules`.
fn is_npm(text: &[u8]) -> bool
    ensures { result ≡ is_npm (slice_split is_slash text.now) }
{
    let mut remaining = Some(text);
    while let Some(rest) = remaining {
        let (part, after) = cut(rest);
        if part == b"node_modules".as_slice() && names_package_after(after) {
            return true;
        }
        remaining = after;
    }
    false
}

/// Whether the text after `node_modules/`, if there is one, names a package's own file.
fn names_package_after(after: Option<&[u8]>) -> bool
    ensures { result ≡ names_package (remaining_parts is_slash (option_map (λ text. text.now) after.entry)) }
{
    match after {
        Some(text) => names_package(text),
        None => false,
    }
}

#[tactic(auto, using(crate::proofs::PlaceLemmas::too_deep))]
fn names_package(text: &[u8]) -> bool
    ensures { result ≡ names_package (slice_split is_slash text.now) }
{
    let (first, after) = cut(text);
    let Some(rest) = after else {
        return false;
    };
    let (second, after) = cut(rest);
    let Some(rest) = after else {
        return is_package_file(second);
    };
    let (third, after) = cut(rest);
    match after {
        Some(_) => false,
        None => is_scope(first) && is_package_file(third),
    }
}

fn is_package_file(name: &[u8]) -> bool
    ensures { result ≡ same name.now (codes "package.json") }
{
    name == b"package.json".as_slice()
}

/// Whether a component is the name of a scope.
fn is_scope(name: &[u8]) -> bool
    ensures { result ≡ is_scope name.now }
{
    matches!(name, [b'@', _, ..])
}

/// Whether a path is the metadata of an installed Python package.
fn is_python_metadata(path: &RelPath) -> bool
    ensures { result ≡ is_pypi path.now }
{
    names_metadata(path.folder_name(), path.file_name())
}

/// Whether these are the names of a folder and of a file in it, which is such metadata.
fn names_metadata(folder: Option<&str>, file: Option<&str>) -> bool
    ensures { result ≡ names_metadata (option_map (λ text. text.now) folder.entry) (option_map (λ text. text.now) file.entry) }
{
    match (folder, file) {
        (Some(folder), Some(file)) => is_metadata(folder.as_bytes(), file.as_bytes()),
        _ => false,
    }
}

fn is_metadata(folder: &[u8], file: &[u8]) -> bool
    ensures { result ≡ is_metadata folder.now file.now }
{
    (has_ending(folder, b".dist-info") && file == b"METADATA".as_slice())
        || (has_ending(folder, b".egg-info") && file == b"PKG-INFO".as_slice())
}

/// Whether a folder has this ending after a name that is not empty.
fn has_ending(folder: &[u8], ending: &[u8]) -> bool
    ensures { result ≡ has_ending ending.now folder.now }
{
    folder.ends_with(ending) && ending.len() < folder.len()
}

/// The first component, and what stands after its slash.
fn cut(text: &[u8]) -> (&[u8], Option<&[u8]>)
    ensures parts { slice_split is_slash text.now ≡ result.0.now ∷ remaining_parts is_slash (option_map (λ rest. rest.now) result.1) }
    ensures shorter { remaining_len (option_map (λ rest. rest.now) result.1) ≤ length text.now }
{
    split_first(text, b'/')
}
