ghost use Rattle.std.specs.Prelude.{◌≡◌};
ghost use Rattle.std.specs.List.{list_any, slice_split};
ghost use Rattle.cv_base.specs.Path.{is_slash, is_special};
ghost use Rattle.cv_overlay.specs.Mark.{has_mark, is_opaque_name, is_reserved_name, is_whiteout_name, mark_of};
ghost use Rattle.cv_overlay.specs.code.Text.{mark_by};

use crate::cut::cut;
use cv_base::{RelPath, is_special};

/// What an entry of a layer stands for.
#[derive(Clone, Copy, Debug, PartialEq, Eq)]
pub enum Mark {
    /// An entry that is ignored, with all below it.
    Reserved,
    /// Its directory hides all that lower layers have in it.
    Opaque,
    /// It hides what lower layers have at its target, and below that.
    Whiteout,
    /// A name of a whiteout without a target, or that of a directory.
    Bad,
    /// An entry of the root itself.
    Plain,
}

/// What the entry at a path stands for.
pub fn mark_of(path: &RelPath, is_dir: bool) -> Mark
    ensures { result ≡ mark_of path.now is_dir }
{
    let text = path.text().as_bytes();
    match cut(text) {
        None => mark_by(false, text, is_dir),
        Some((directory, name)) => mark_by(has_reserved(directory), name, is_dir),
    }
}

/// What an entry stands for, by its name and whether its directory is reserved.
fn mark_by(in_reserved: bool, name: &[u8], is_dir: bool) -> Mark
    ensures { result ≡ mark_by in_reserved name.now is_dir }
{
    if in_reserved {
        return Mark::Reserved;
    }
    if is_reserved_name(name) {
        return if !is_dir && is_opaque_name(name) {
            Mark::Opaque
        } else {
            Mark::Reserved
        };
    }
    if !has_mark(name) {
        return Mark::Plain;
    }
    if !is_dir && is_whiteout_name(name) {
        Mark::Whiteout
    } else {
        Mark::Bad
    }
}

/// Whether a component of a path is reserved, given by the path's text.
fn has_reserved(text: &[u8]) -> bool
    ensures { result ≡ list_any is_reserved_name (slice_split is_slash text.now) }
{
    text.split(|byte| *byte == b'/').any(is_reserved_name)
}

fn is_reserved_name(name: &[u8]) -> bool
    ensures { result ≡ is_reserved_name name.now }
{
    name.starts_with(b".wh..wh.")
}

fn is_opaque_name(name: &[u8]) -> bool
    ensures { result ≡ is_opaque_name name.now }
{
    name == b".wh..wh..opq".as_slice()
}

fn has_mark(name: &[u8]) -> bool
    ensures { result ≡ has_mark name.now }
{
    name.starts_with(b".wh.")
}

/// Whether a name is that of a whiteout with a target.
fn is_whiteout_name(name: &[u8]) -> bool
    ensures { result ≡ is_whiteout_name name.now }
{
    match name.strip_prefix(b".wh.") {
        Some(target) => !is_special(target),
        None => false,
    }
}
