ghost use Rattle.std.specs.Prelude.{◌≡◌, ◌++◌, ◌∷◌, [], true, false, drop, map, IfOk, OnOk};
ghost use Rattle.cv_base.specs.Path.{IsPath};
ghost use Rattle.cv_path.specs.Reading.{is_path_memory};
ghost use Rattle.cv_overlay.specs.Mark.{has_mark, is_dir_kind, listed, mark_of, name_of, target_of};
ghost use Rattle.cv_overlay.specs.declared.mark.Mark.TheVariants.{Whiteout};
ghost use Rattle.cv_facts.specs.Cover.{covers, opaque_dirs, place_dirs, targets};

use cv_base::{Kind, ListEntry, NoMemory, PathError, RelPath, place};
use cv_overlay::{Mark, mark_of};
use std::alloc::Global;

/// What a layer hides, in the order of its listing.
#[derive(Drop)]
pub struct Hides {
    pub whiteouts: Vec<RelPath>,
    pub opaques: Vec<RelPath>,
    pub covers: Vec<RelPath>,
    pub place_dirs: Vec<RelPath>,
}

/// What a layer hides, by its listing. One pass.
pub fn hides_of(alloc: Global, entries: &[ListEntry]) -> Result<Hides, NoMemory>
    ensures whiteouts { IfOk result (λ hides. hides.whiteouts.items ≡ targets (map listed entries.now)) }
    ensures opaques { IfOk result (λ hides. hides.opaques.items ≡ opaque_dirs (map listed entries.now)) }
    ensures covers { IfOk result (λ hides. hides.covers.items ≡ covers (map listed entries.now)) }
    ensures place_dirs { IfOk result (λ hides. hides.place_dirs.items ≡ place_dirs (map listed entries.now)) }
{
    let mut hides = Hides {
        whiteouts: Vec::new(alloc),
        opaques: Vec::new(alloc),
        covers: Vec::new(alloc),
        place_dirs: Vec::new(alloc),
    };
    for entry in entries {
        hides.add(alloc, entry)?;
    }
    Ok(hides)
}

impl Hides {
    /// Adds what an entry hides.
    fn add(&mut self, alloc: Global, entry: &ListEntry) -> Result<(), NoMemory>
        ensures whiteouts { OnOk result (self.new.whiteouts.items ≡ self.old.whiteouts.items ++ targets (listed entry.now ∷ [])) }
        ensures opaques { OnOk result (self.new.opaques.items ≡ self.old.opaques.items ++ opaque_dirs (listed entry.now ∷ [])) }
        ensures covers { OnOk result (self.new.covers.items ≡ self.old.covers.items ++ covers (listed entry.now ∷ [])) }
        ensures place_dirs { OnOk result (self.new.place_dirs.items ≡ self.old.place_dirs.items ++ place_dirs (listed entry.now ∷ [])) }
    {
        let is_dir = is_dir(entry.kind);
        match mark_of(&entry.path, is_dir) {
            Mark::Reserved | Mark::Bad => Ok(()),
            Mark::Whiteout => push(&mut self.whiteouts, target(alloc, &entry.path)?),
            Mark::Opaque => push(&mut self.opaques, entry.path.parent(alloc)?),
            Mark::Plain => {
                if !is_dir {
                    push(&mut self.covers, entry.path.clone()?)
                } else if place(&entry.path).is_some() {
                    push(&mut self.place_dirs, entry.path.clone()?)
                } else {
                    Ok(())
                }
            }
        }
    }
}

fn is_dir(kind: Kind) -> bool
    ensures { result ≡ is_dir_kind kind }
{
    matches!(kind, Kind::Dir)
}

fn push(paths: &mut Vec<RelPath>, path: RelPath) -> Result<(), NoMemory>
    ensures { OnOk result (paths.new.items ≡ paths.old.items ++ path ∷ []) }
{
    paths.push(path)?;
    Ok(())
}

/// The target of a whiteout.
fn target(alloc: Global, path: &RelPath) -> Result<RelPath, NoMemory>
    requires { mark_of path.now false ≡ Whiteout }
    ensures { IfOk result (λ target. target ≡ target_of path.now) }
{
    let name = name_of(path);
    match path.with_file_name(alloc, after_mark(name)) {
        Ok(target) => Ok(target),
        Err(error) => Err(out_of_memory(error)),
    }
}

/// The one error that remains where the name is that of an entry and short enough.
fn out_of_memory(error: PathError) -> NoMemory
    requires { is_path_memory error ≡ true }
{
    match error {
        PathError::NoMemory => NoMemory,
        PathError::Empty | PathError::BadComponent | PathError::TooLong => unreachable!(),
    }
}

/// The last component of a path, and the empty text for the top.
fn name_of(path: &RelPath) -> &str
    ensures name { result.now ≡ name_of path.now }
    ensures path { IsPath path.now }
{
    let text = path.text();
    match path.file_name() {
        Some(name) => name,
        None => text,
    }
}

/// The name after the mark of a whiteout.
fn after_mark(name: &str) -> &str
    ensures { has_mark name.now ≡ true → result.now ≡ drop 4 name.now }
{
    match name.strip_prefix(".wh.") {
        Some(target) => target,
        None => name,
    }
}
