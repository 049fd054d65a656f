ghost use Rattle.std.specs.Prelude.{◌≡◌, ◌+◌, ◌^◌, ◌<◌, ◌≤◌, ◌||◌, ◌++◌, ◌∷◌, [], true, cond, is_none, map, IfOk, IfSome, OnOk, Some};
ghost use Rattle.std.specs.List.{count_by, list_all};
ghost use Rattle.std.specs.Option.{option_map};
ghost use Rattle.cv_base.specs.Place.{place_of};
ghost use Rattle.cv_seq.specs.Cause.{CausedBy};
ghost use Rattle.cv_desk.specs.Counts.{HasReads, count_after, is_file, is_other, package_files};
ghost use Rattle.cv_desk.specs.Fault.{is_failed};
ghost use Rattle.cv_desk.specs.Loaded.{answered, is_read, is_read_node, loaded, loaded_file};
ghost use Rattle.cv_desk.specs.code.Loaded.{loaded_by};
ghost use Rattle.cv_desk.specs.Stored.{item_in};
ghost use Rattle.cv_desk.specs.code.Listed.{FitsFound, FitsReads, IsAnswer, files_to_read, is_to_read};

use crate::desk::{Desk, DeskFault, FileRead};
use cv_base::{
    Content, Digest, Kind, ListEntry, NoMemory, Node, PACKAGE_FILE_LIMIT, RelPath, Seq, Tree,
    TreeEntry, place,
};
use std::alloc::Global;

/// Loads a layer: lists it once, and reads its package files, up to their limit, and no others. A listed file that is no
/// file any more when it is read is `Other`.
pub fn load<D: Desk>(alloc: Global, desk: &mut D, layer: &Digest) -> Result<Option<Tree>, DeskFault>
    requires room { D.listings desk.old < 2 ^ 63 + 2 ^ 62 }
    ensures tree { IfSome (D.tree layer.now) (λ t. IfOk result (λ found. option_map (λ tree. tree.entries) found ≡ option_map (map loaded) t)) }
    ensures read { IfOk result (λ found. IfSome found (λ tree. list_all is_read tree.entries ≡ true)) }
    ensures cause { CausedBy (D.faults desk.old) (D.faults desk.new) (is_failed result) }
    ensures counted { D.listings desk.new ≡ D.listings desk.old + 1 }
    ensures reads { IfSome (D.tree layer.now) (λ _. IfOk result (λ found. D.reads desk.new ≡ count_after (D.reads desk.old) (package_files found))) }
    ensures gone { IfOk result (λ found. HasReads found (D.reads desk.old) (D.reads desk.new)) }
{
    let listed = desk.list(alloc, layer)?;
    load_listed(alloc, desk, layer, listed)
}

/// Loads the entries of a listing, if there is a layer.
fn load_listed<D: Desk>(
    alloc: Global,
    desk: &mut D,
    layer: &Digest,
    listed: Option<Seq<ListEntry>>,
) -> Result<Option<Tree>, DeskFault>
    ensures tree { IfSome (D.tree layer.now) (λ t. IfOk result (λ found. option_map (λ tree. tree.entries) found ≡ option_map (map (loaded_by t)) listed)) }
    ensures read { IfOk result (λ found. IfSome found (λ tree. list_all is_read tree.entries ≡ true)) }
    ensures cause { CausedBy (D.faults desk.old) (D.faults desk.new) (is_failed result) }
    ensures same { D.listings desk.new ≡ D.listings desk.old }
    ensures reads { OnOk result (D.reads desk.new ≡ count_after (D.reads desk.old) (files_to_read listed)) }
    ensures fits { IfOk result (λ found. FitsFound found (files_to_read listed)) }
{
    let Some(listed) = listed else {
        return Ok(None);
    };
    let entries = load_entries(alloc, desk, layer, listed.into_vec())?;
    Ok(Some(Tree {
        entries: Seq::of(entries),
    }))
}

/// Loads the entries of a listing.
fn load_entries<D: Desk>(
    alloc: Global,
    desk: &mut D,
    layer: &Digest,
    listed: Vec<ListEntry>,
) -> Result<Vec<TreeEntry>, DeskFault>
    ensures entries { IfSome (D.tree layer.now) (λ t. IfOk result (λ out. out.items ≡ map (loaded_by t) listed.items)) }
    ensures read { IfOk result (λ out. list_all is_read out.items ≡ true) }
    ensures cause { CausedBy (D.faults desk.old) (D.faults desk.new) (is_failed result) }
    ensures same { D.listings desk.new ≡ D.listings desk.old }
    ensures reads { OnOk result (D.reads desk.new ≡ count_after (D.reads desk.old) (count_by is_to_read listed.items)) }
    ensures fits { IfOk result (λ out. FitsReads out.items (count_by is_to_read listed.items)) }
{
    let mut out = Vec::new(alloc);
    for entry in listed {
        let loaded = load_entry(alloc, desk, layer, entry)?;
        append(&mut out, loaded)?;
    }
    Ok(out)
}

fn append(entries: &mut Vec<TreeEntry>, entry: TreeEntry) -> Result<(), NoMemory>
    ensures { OnOk result (entries.new.items ≡ entries.old.items ++ entry ∷ []) }
{
    Ok(entries.push(entry)?)
}

#[tactic(auto, using(crate::proofs::ReadCounts::answer_read))]
fn load_entry<D: Desk>(
    alloc: Global,
    desk: &mut D,
    layer: &Digest,
    entry: ListEntry,
) -> Result<TreeEntry, DeskFault>
    ensures entry { IfSome (D.tree layer.now) (λ t. IfOk result (λ out. out ≡ loaded_by t entry)) }
    ensures read { IfOk result (λ out. is_read out ≡ true) }
    ensures cause { CausedBy (D.faults desk.old) (D.faults desk.new) (is_failed result) }
    ensures same { D.listings desk.new ≡ D.listings desk.old }
    ensures reads { OnOk result (D.reads desk.new ≡ count_after (D.reads desk.old) (cond (is_to_read entry) 1 0)) }
    ensures answer { IfOk result (λ out. IsAnswer entry out) }
{
    let ListEntry {
        path,
        kind,
        size: _,
    } = entry;
    let node = match kind {
        Kind::Dir => Node::Dir,
        Kind::File => load_file(alloc, desk, layer, &path)?,
        Kind::Other => Node::Other,
    };
    Ok(TreeEntry { path, node })
}

fn load_file<D: Desk>(
    alloc: Global,
    desk: &mut D,
    layer: &Digest,
    path: &RelPath,
) -> Result<Node, DeskFault>
    ensures file { IfSome (D.tree layer.now) (λ t. IfOk result (λ node. node ≡ loaded_file path.now (item_in t path.now))) }
    ensures read { IfOk result (λ node. is_read_node path.now node ≡ true) }
    ensures cause { CausedBy (D.faults desk.old) (D.faults desk.new) (is_failed result) }
    ensures same { D.listings desk.new ≡ D.listings desk.old }
    ensures reads { OnOk result (D.reads desk.new ≡ count_after (D.reads desk.old) (cond (is_none (place_of path.now)) 0 1)) }
    ensures answer { IfOk result (λ node. is_file node || is_other node ≡ true) }
{
    if place(path).is_none() {
        return Ok(Node::File(Content::Unread));
    }
    Ok(answered(desk.read(alloc, layer, path, PACKAGE_FILE_LIMIT)?))
}

/// The node of a file that was read.
fn answered(read: FileRead) -> Node
    ensures { result ≡ answered read }
{
    match read {
        FileRead::Bytes(bytes) => Node::File(Content::Bytes(bytes)),
        FileRead::TooLarge => Node::File(Content::TooLarge),
        FileRead::NotFile => Node::Other,
    }
}
