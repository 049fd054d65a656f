ghost use Rattle.std.specs.Prelude.{◌++◌, ◌≡◌, ◌∷◌, [], IfOk, IfSome, List, None, OnOk, cond, true};
ghost use Rattle.std.specs.List.{count_by};
ghost use Rattle.std.specs.Option.{option_map};
ghost use Rattle.cv_seq.specs.Cause.{CausedBy};
ghost use Rattle.cv_desk.specs.Counts.{count_after};
ghost use Rattle.cv_overlay.specs.Fault.{list_fault};
ghost use Rattle.cv_packages.specs.Found.{found_in};
ghost use Rattle.cv_seal.specs.Seal.{SealedEntry, is_summed};
ghost use Rattle.cv_seal.specs.Taken.{HasTaken};
ghost use Rattle.cv_facts.specs.Cause.{is_desk_fault};
ghost use Rattle.cv_facts.specs.Order.{AreAscending};
ghost use Rattle.cv_facts.specs.Reads.{is_read};
ghost use Rattle.cv_facts.specs.Sealed.{IsSealOf, changed, sealed_read, sealed_with};
ghost use Rattle.cv_facts.specs.code.Listing.{HasSealed, content_of, listed_file, listed_files, listed_seal, own_place, place_at};

use crate::error::IndexError;
use cv_base::{
    Content, Digest, Kind, ListEntry, NoMemory, PACKAGE_FILE_LIMIT, Place, RelPath, place,
};
use cv_desk::{Desk, FileRead};
use cv_overlay::{Mark, mark_of};
use cv_packages::{FileFound, read_file};
use cv_seal::{Seal, is_summed};
use cv_seq::push_some;
use std::alloc::Global;

/// What is read of the entries of a layer: its package files, and its seal.
#[derive(Drop)]
pub struct Contents {
    pub files: Vec<FileFound>,
    pub seal: Digest,
}

/// Reads the entries of a listed layer, each at most once: its package files, those of its own that are plain, and all that the
/// seal sums.
pub fn read_entries<D: Desk>(
    alloc: Global,
    desk: &mut D,
    layer: &Digest,
    entries: &[ListEntry],
) -> Result<Contents, IndexError>
    requires good { list_fault entries.now ≡ None }
    ensures files { IfSome (D.tree layer.now) (λ t. IfOk result (λ contents. contents.files.items ≡ listed_files t entries.now)) }
    ensures ordered { IfOk result (λ contents. AreAscending contents.files.items) }
    ensures seal { IfSome (D.tree layer.now) (λ t. IfOk result (λ contents. contents.seal ≡ listed_seal t entries.now)) }
    ensures sealed { IfOk result (λ contents. IsSealOf entries.now contents.seal) }
    ensures cause { CausedBy (D.faults desk.old) (D.faults desk.new) (is_desk_fault result) }
    ensures same { D.listings desk.new ≡ D.listings desk.old }
    ensures reads { OnOk result (D.reads desk.new ≡ count_after (D.reads desk.old) (count_by is_read entries.now)) }
{
    let mut files = Vec::new(alloc);
    let mut seal = Seal::new();
    for entry in entries {
        let file = read_entry(alloc, desk, layer, &mut seal, entry)?;
        push_some(&mut files, file)?;
    }
    Ok(Contents {
        files,
        seal: seal.finish(),
    })
}

/// Seals an entry, and gives the package file that it is, if it is one.
fn read_entry<D: Desk>(
    alloc: Global,
    desk: &mut D,
    layer: &Digest,
    seal: &mut Seal,
    entry: &ListEntry,
) -> Result<Option<FileFound>, IndexError>
    ensures file { IfSome (D.tree layer.now) (λ t. IfOk result (λ file. file ≡ listed_file t entry.now)) }
    ensures path { IfOk result (λ file. IfSome file (λ f. f.path ≡ entry.now.path)) }
    ensures seal { OnOk result (HasSealed (D.tree layer.now) entry.now seal.old seal.new) }
    ensures cause { CausedBy (D.faults desk.old) (D.faults desk.new) (is_desk_fault result) }
    ensures same { D.listings desk.new ≡ D.listings desk.old }
    ensures reads { OnOk result (D.reads desk.new ≡ count_after (D.reads desk.old) (cond (is_read entry.now) 1 0)) }
{
    let place = own_place(entry);
    if !is_read(entry, place) {
        seal.entry(entry, None);
        return Ok(None);
    }
    let read = desk.read(alloc, layer, &entry.path, PACKAGE_FILE_LIMIT)?;
    seal_entry(seal, entry, &read)?;
    match place {
        None => Ok(None),
        Some(place) => Ok(file_found(alloc, &entry.path, place, content_of(read))?),
    }
}

/// Whether an entry is read, of which this is the place as a plain file.
fn is_read(entry: &ListEntry, place: Option<Place>) -> bool
    requires { place ≡ own_place entry.now }
    ensures { result ≡ is_read entry.now }
{
    place.is_some() || is_summed(entry)
}

/// The place of an entry that is listed as a plain file at a place of package files.
fn own_place(entry: &ListEntry) -> Option<Place>
    ensures { result ≡ own_place entry.now }
{
    match entry.kind {
        Kind::Dir | Kind::Other => None,
        Kind::File => place_at(&entry.path),
    }
}

/// The place of a plain file at this path.
fn place_at(path: &RelPath) -> Option<Place>
    ensures { result ≡ place_at path.now }
{
    let Some(place) = place(path) else {
        return None;
    };
    match mark_of(path, false) {
        Mark::Plain => Some(place),
        Mark::Reserved | Mark::Opaque | Mark::Whiteout | Mark::Bad => None,
    }
}

/// Seals an entry of which this was read.
fn seal_entry(seal: &mut Seal, entry: &ListEntry, read: &FileRead) -> Result<(), NoMemory>
    ensures { OnOk result ((taken : List SealedEntry) → HasTaken seal.old taken → HasTaken seal.new (taken ++ sealed_with read.now entry.now ∷ [])) }
{
    if is_summed(entry) {
        return seal_summed(seal, entry, read);
    }
    seal.entry(entry, None);
    Ok(())
}

/// Seals an entry whose bytes are summed, of which this was read.
fn seal_summed(seal: &mut Seal, entry: &ListEntry, read: &FileRead) -> Result<(), NoMemory>
    requires { is_summed entry.now ≡ true }
    ensures { OnOk result ((taken : List SealedEntry) → HasTaken seal.old taken → HasTaken seal.new (taken ++ sealed_read entry.now read.now ∷ [])) }
{
    match read {
        FileRead::Bytes(bytes) if bytes.as_slice().len() as u64 == entry.size => {
            seal.entry(entry, Some(bytes.as_slice()));
        }
        FileRead::Bytes(_) | FileRead::TooLarge | FileRead::NotFile => {
            seal.entry(&changed(entry)?, None);
        }
    }
    Ok(())
}

/// An entry that changed after it was listed.
fn changed(entry: &ListEntry) -> Result<ListEntry, NoMemory>
    ensures { IfOk result (λ found. found ≡ changed entry.now) }
{
    Ok(ListEntry {
        path: entry.path.clone()?,
        kind: Kind::Other,
        size: 0,
    })
}

/// What was read, unless the file is no longer there.
fn content_of(read: FileRead) -> Option<Content>
    ensures { result ≡ content_of read }
{
    match read {
        FileRead::Bytes(bytes) => Some(Content::Bytes(bytes)),
        FileRead::TooLarge => Some(Content::TooLarge),
        FileRead::NotFile => None,
    }
}

/// The file at a path with this content, with what it has.
fn file_found(
    alloc: Global,
    path: &RelPath,
    place: Place,
    content: Option<Content>,
) -> Result<Option<FileFound>, NoMemory>
    ensures { IfOk result (λ file. file ≡ option_map (λ c. record { path = path.now; found = found_in place c }) content) }
{
    match content {
        None => Ok(None),
        Some(content) => Ok(Some(FileFound {
            found: read_file(alloc, place, &content)?,
            path: path.clone()?,
        })),
    }
}
