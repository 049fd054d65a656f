ghost use Rattle.std.specs.Prelude.{◌≡◌, ◌≢◌, ◌↔◌, ◌≤◌, ◌<◌, ◌+◌, ◌++◌, ◌∷◌, [], true, false, is_some, length, IfOk, IfErr, IfSome, IsErr, IsErrAnd, IsTrue, OnOk, Ok, None};
ghost use Rattle.std.specs.Fs.{IsDir, IsFile, dir_entry_name, file_type, metadata_len};
ghost use Rattle.std.specs.Iterator.{IsFinite};
ghost use Rattle.std.specs.List.Sorted.{IsPermutation, IsSortedByKey};
ghost use Rattle.std.specs.IoError.{error_kind};
ghost use Rattle.cv_base.specs.Path.{path_cmp, path_of, path_text};
ghost use Rattle.cv_desk_folder.specs.Folder.{most_entries};
ghost use Rattle.cv_desk_folder.specs.code.Walked.{AreAllAdded, Grows, IsErrorOf, IsInterrupted, is_failure, joined};

use crate::again::look;
use crate::failure::{FolderError, answer_at, failure};
use crate::place::{folder_of, joined};
use cv_base::{Digest, Kind, ListEntry, MAX_ENTRIES, PathError, RelPath, Seq};
use cv_io::{MOST_TRIES, too_many_signals};
use std::alloc::Global;
use std::fs::{self, DirEntry, Metadata, ReadDir};
use std::io::{self, ErrorKind};
use std::rt::Files;

/// The number of entries after which a walk ends: one more than a layer may have.
const MOST_ENTRIES: usize = MAX_ENTRIES + 1;

/// Lists the entries below a layer's folder in the order of their paths, or says that there is no such folder.
pub fn list_folder<R: Files + AllocGlobal + Clone + Drop>(
    rt: &R,
    alloc: Global,
    layer: &Digest,
) -> Result<Option<Seq<ListEntry>>, FolderError>
    ensures sorted { IfOk result (λ found. IfSome found (λ entries. IsSortedByKey (λ entry. entry.path) path_cmp entries)) }
    ensures at_most { IfOk result (λ found. IfSome found (λ entries. length entries ≤ most_entries)) }
{
    let folder = folder_of(alloc, layer)?;
    let found = look(rt, folder.as_str());
    list_found(rt, alloc, folder.as_str(), found)
}

/// Lists the entries below a layer's folder, by the system's answer about it.
fn list_found<R: Files + AllocGlobal + Clone + Drop>(
    rt: &R,
    alloc: Global,
    folder: &str,
    found: io::Result<Metadata>,
) -> Result<Option<Seq<ListEntry>>, FolderError>
    ensures folder { IfOk found (λ at. IsDir (file_type at) → IfOk result (λ entries. is_some entries ≡ true)) }
    ensures no_folder { IfOk found (λ at. ¬ IsDir (file_type at) → IsErrAnd result (λ error. is_failure error ≡ true)) }
    ensures absent { IfErr found (λ error. error_kind error ≡ ErrorKind.NotFound → result ≡ Ok None) }
    ensures error { IfErr found (λ reason. error_kind reason ≢ ErrorKind.NotFound → IsErrAnd result (IsErrorOf reason)) }
    ensures sorted { IfOk result (λ found. IfSome found (λ entries. IsSortedByKey (λ entry. entry.path) path_cmp entries)) }
    ensures at_most { IfOk result (λ found. IfSome found (λ entries. length entries ≤ most_entries)) }
{
    if !is_layer(alloc, folder, found)? {
        return Ok(None);
    }
    let mut entries = walk(rt, alloc, folder)?;
    sort(&mut entries);
    Ok(Some(Seq::of(entries)))
}

/// Whether there is a layer, by the system's answer about its folder.
fn is_layer(alloc: Global, folder: &str, found: io::Result<Metadata>) -> Result<bool, FolderError>
    ensures folder { IfOk found (λ at. IsDir (file_type at) → result ≡ Ok true) }
    ensures no_folder { IfOk found (λ at. ¬ IsDir (file_type at) → IsErrAnd result (λ error. is_failure error ≡ true)) }
    ensures absent { IfErr found (λ error. error_kind error ≡ ErrorKind.NotFound → result ≡ Ok false) }
    ensures error { IfErr found (λ reason. error_kind reason ≢ ErrorKind.NotFound → IsErrAnd result (IsErrorOf reason)) }
{
    match found {
        Ok(found) => {
            if found.is_dir() {
                return Ok(true);
            }
            let reason = io::Error::from(ErrorKind::NotADirectory);
            Err(failure(alloc, folder, reason))
        }
        Err(error) => {
            if error.kind() == ErrorKind::NotFound {
                return Ok(false);
            }
            Err(failure(alloc, folder, error))
        }
    }
}

/// Sorts entries by their paths.
#[tactic(auto, using(crate::proofs::Walks::sorted_by_key))]
fn sort(entries: &mut Vec<ListEntry>)
    ensures sorted { IsSortedByKey (λ entry. entry.path) path_cmp entries.new.items }
    ensures permutation { IsPermutation entries.old.items entries.new.items }
    ensures count { length entries.new.items ≡ length entries.old.items }
{
    entries.sort_unstable();
}

/// The entries below a folder, in no order.
fn walk<R: Files + AllocGlobal + Clone + Drop>(
    rt: &R,
    alloc: Global,
    folder: &str,
) -> Result<Vec<ListEntry>, FolderError>
    ensures { IfOk result (λ entries. length entries.items ≤ most_entries) }
{
    let mut entries = Vec::new(alloc);
    let mut folders = Vec::new(alloc);
    folders.push(RelPath::top())?;
    list_all(rt, alloc, folder, &mut entries, &mut folders)?;
    Ok(entries)
}

/// Lists folders and the folders in them, until none remains or the walk has as many entries as it may have.
fn list_all<R: Files + AllocGlobal + Clone + Drop>(
    rt: &R,
    alloc: Global,
    folder: &str,
    entries: &mut Vec<ListEntry>,
    folders: &mut Vec<RelPath>,
) -> Result<(), FolderError>
    requires room { length entries.old.items < most_entries }
    ensures at_most { OnOk result (length entries.new.items ≤ most_entries) }
    ensures whole { OnOk result (length entries.new.items < most_entries → folders.new.items ≡ []) }
{
    while let Some(path) = folders.pop() {
        if !list_one(rt, alloc, folder, &path, entries, folders)? {
            break;
        }
    }
    Ok(())
}

/// Adds the entries directly in one folder of a layer, and its folders to those that remain to be listed. Returns whether the walk goes
/// on; else it has as many entries as it may have. A folder of which a signal interrupts the listing is listed anew.
#[tactic(auto, using(crate::proofs::Walks::grows_none, crate::proofs::Walks::cut_back))]
fn list_one<R: Files + AllocGlobal + Clone + Drop>(
    rt: &R,
    alloc: Global,
    folder: &str,
    path: &RelPath,
    entries: &mut Vec<ListEntry>,
    folders: &mut Vec<RelPath>,
) -> Result<bool, FolderError>
    requires room { length entries.old.items < most_entries }
    ensures at_most { OnOk result (length entries.new.items ≤ most_entries) }
    ensures more { OnOk result (length entries.old.items ≤ length entries.new.items) }
    ensures entries { Grows entries.old.items entries.new.items }
    ensures no_interrupt { ¬ IsErrAnd result IsInterrupted }
    ensures folders { OnOk result (length folders.new.items + length entries.old.items ≤ length folders.old.items + length entries.new.items) }
    ensures full { IfOk result (λ goes_on. goes_on ≡ false → length entries.new.items ≡ most_entries) }
    ensures room { IfOk result (λ goes_on. goes_on ≡ true → length entries.new.items < most_entries) }
{
    let place = joined(alloc, folder, path.text())?;
    let (listed, to_list) = (entries.len(), folders.len());
    for _ in 0..MOST_TRIES {
        let answer = list_at(rt, alloc, place.as_str(), path, entries, folders);
        if !is_interrupted(&answer) {
            return answer;
        }
        entries.truncate(listed);
        folders.truncate(to_list);
    }
    Err(failure(alloc, place.as_str(), too_many_signals()))
}

/// Whether a signal interrupted a listing.
fn is_interrupted<X>(answer: &Result<X, FolderError>) -> bool
    ensures { IsTrue result ↔ IsErrAnd answer.now IsInterrupted }
{
    match answer {
        Ok(_) => false,
        Err(error) => error.is_interrupted(),
    }
}

/// Adds the entries directly in the folder at `place`, which is `path` in the layer, as `list_one` does, but with one try.
fn list_at<R: Files + AllocGlobal + Clone + Drop>(
    rt: &R,
    alloc: Global,
    place: &str,
    path: &RelPath,
    entries: &mut Vec<ListEntry>,
    folders: &mut Vec<RelPath>,
) -> Result<bool, FolderError>
    requires room { length entries.old.items < most_entries }
    ensures more { OnOk result (length entries.old.items ≤ length entries.new.items) }
    ensures entries { Grows entries.old.items entries.new.items }
    ensures to_list { Grows folders.old.items folders.new.items }
    ensures at_most { OnOk result (length entries.new.items ≤ most_entries) }
    ensures folders { OnOk result (length folders.new.items + length entries.old.items ≤ length folders.old.items + length entries.new.items) }
    ensures full { IfOk result (λ goes_on. goes_on ≡ false → length entries.new.items ≡ most_entries) }
    ensures room { IfOk result (λ goes_on. goes_on ≡ true → length entries.new.items < most_entries) }
{
    let found = fs::read_dir(rt, place);
    add_found(alloc, place, path, found, entries, folders)
}

/// Adds the entries that the system found in the folder at `place`, which is `path` in the layer, as `list_one` does.
#[tactic(auto, using(crate::proofs::Walks::grows_none))]
fn add_found<R: Files + Clone + Drop>(
    alloc: Global,
    place: &str,
    path: &RelPath,
    found: io::Result<ReadDir<R>>,
    entries: &mut Vec<ListEntry>,
    folders: &mut Vec<RelPath>,
) -> Result<bool, FolderError>
    requires room { length entries.old.items < most_entries }
    ensures error { IfErr found (λ reason. IsErrAnd result (IsErrorOf reason)) }
    ensures at_most { OnOk result (length entries.new.items ≤ most_entries) }
    ensures more { OnOk result (length entries.old.items ≤ length entries.new.items) }
    ensures entries { Grows entries.old.items entries.new.items }
    ensures to_list { Grows folders.old.items folders.new.items }
    ensures folders { OnOk result (length folders.new.items + length entries.old.items ≤ length folders.old.items + length entries.new.items) }
    ensures full { IfOk result (λ goes_on. goes_on ≡ false → length entries.new.items ≡ most_entries) }
    ensures room { IfOk result (λ goes_on. goes_on ≡ true → length entries.new.items < most_entries) }
{
    let found = answer_at(alloc, place, found)?;
    add_each(alloc, place, path, found, entries, folders)
}

/// Adds the entry of each item that the system found in the folder at `place`, as `list_one` does. An item that is an error is an error
/// here too.
#[tactic(auto, using(crate::proofs::Walks::grows_none, crate::proofs::Walks::grows_more))]
fn add_each<R: Files + Drop, I: Iterator<Item = io::Result<DirEntry<R>>>>(
    alloc: Global,
    place: &str,
    path: &RelPath,
    found: I,
    entries: &mut Vec<ListEntry>,
    folders: &mut Vec<RelPath>,
) -> Result<bool, FolderError>
    requires can { I.can_next found }
    requires ends { IsFinite (I.remaining found) }
    requires room { length entries.old.items < most_entries }
    ensures each { IfOk result (λ goes_on. goes_on ≡ true → AreAllAdded I.next_gives found (length entries.old.items) (length entries.new.items)) }
    ensures at_most { OnOk result (length entries.new.items ≤ most_entries) }
    ensures more { OnOk result (length entries.old.items ≤ length entries.new.items) }
    ensures entries { Grows entries.old.items entries.new.items }
    ensures to_list { Grows folders.old.items folders.new.items }
    ensures folders { OnOk result (length folders.new.items + length entries.old.items ≤ length folders.old.items + length entries.new.items) }
    ensures full { IfOk result (λ goes_on. goes_on ≡ false → length entries.new.items ≡ most_entries) }
    ensures room { IfOk result (λ goes_on. goes_on ≡ true → length entries.new.items < most_entries) }
{
    for entry in found {
        let entry = read_entry(alloc, place, path, entry)?;
        add(entries, folders, entry)?;
        if entries.len() >= MOST_ENTRIES {
            return Ok(false);
        }
    }
    Ok(true)
}

/// Adds an entry, and its path to the folders if it is one.
#[tactic(auto, using(crate::proofs::Walks::grows_none, crate::proofs::Walks::grows_by))]
fn add(
    entries: &mut Vec<ListEntry>,
    folders: &mut Vec<RelPath>,
    entry: ListEntry,
) -> Result<(), FolderError>
    ensures entries { OnOk result (entries.new.items ≡ entries.old.items ++ entry ∷ []) }
    ensures folder { OnOk result (entry.kind ≡ Kind.Dir → folders.new.items ≡ folders.old.items ++ entry.path ∷ []) }
    ensures other { OnOk result (entry.kind ≢ Kind.Dir → folders.new.items ≡ folders.old.items) }
    ensures grows { Grows entries.old.items entries.new.items }
    ensures to_list { Grows folders.old.items folders.new.items }
    ensures count { OnOk result (length entries.new.items ≡ length entries.old.items + 1) }
    ensures at_most { OnOk result (length folders.new.items ≤ length folders.old.items + 1) }
{
    if entry.kind == Kind::Dir {
        folders.push(entry.path.clone()?)?;
    }
    entries.push(entry)?;
    Ok(())
}

/// The layer's entry for what the system found in the folder at `path`. `place` names the folder in a failure.
fn read_entry<R: Files + Drop>(
    alloc: Global,
    place: &str,
    path: &RelPath,
    found: io::Result<DirEntry<R>>,
) -> Result<ListEntry, FolderError>
    ensures path { IfOk found (λ entry. IfOk result (λ listed. path_of (joined (path_text path.now) (dir_entry_name entry)) ≡ Ok listed.path)) }
    ensures error { IfErr found (λ reason. IsErrAnd result (IsErrorOf reason)) }
{
    let entry = answer_at(alloc, place, found)?;
    let name = joined(alloc, path.text(), entry.file_name())?;
    let found = entry.metadata();
    listed(alloc, entry.path().as_str(), name.as_str(), found)
}

/// The entry at a path of a layer, by the system's answer about it. `place` names it in a failure.
fn listed(
    alloc: Global,
    place: &str,
    name: &str,
    found: io::Result<Metadata>,
) -> Result<ListEntry, FolderError>
    ensures error { IfErr found (λ reason. IsErrAnd result (IsErrorOf reason)) }
    ensures path { IfOk result (λ entry. path_of name.now ≡ Ok entry.path) }
    ensures dir { IfOk found (λ at. IfOk result (λ entry. IsDir (file_type at) → (entry.kind ≡ Kind.Dir) × (entry.size ≡ 0))) }
    ensures file { IfOk found (λ at. IfOk result (λ entry. IsFile (file_type at) → (entry.kind ≡ Kind.File) × (entry.size ≡ metadata_len at))) }
    ensures other { IfOk found (λ at. IfOk result (λ entry. ¬ IsDir (file_type at) → ¬ IsFile (file_type at) → (entry.kind ≡ Kind.Other) × (entry.size ≡ 0))) }
    ensures refused { IfOk found (λ at. IfErr result (λ error. is_failure error ≡ true → IsErr (path_of name.now))) }
{
    let metadata = answer_at(alloc, place, found)?;
    let path = match RelPath::read(alloc, name) {
        Ok(path) => path,
        Err(PathError::NoMemory) => return Err(FolderError::NoMemory),
        Err(PathError::Empty | PathError::TooLong | PathError::BadComponent) => {
            let reason = io::Error::from(ErrorKind::InvalidFilename);
            return Err(failure(alloc, place, reason));
        }
    };
    let (kind, size) = if metadata.is_dir() {
        (Kind::Dir, 0)
    } else if metadata.is_file() {
        (Kind::File, metadata.len())
    } else {
        (Kind::Other, 0)
    };
    Ok(ListEntry { path, kind, size })
}
