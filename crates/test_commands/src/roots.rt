use crate::compare::after_one_of;
use crate::layers::Layers;
use crate::streams::{CALM, source_of};
use cv_base::{Digest, Manifest, NoMemory, Text, Tree};
use cv_desk::{DeskFault, TableDesk, load};
use cv_io::MemSource;
use cv_overlay::{OverlayError, Root};
use cv_scan::{ScanError, scan_root};
use cv_scan_input::{InputError, InputLines, ScanKind, read_input};
use cv_scan_output::good_line;
use std::alloc::Global;

/// Loads the layers of an input, lays them on a root and scans it. Whether the line of what is found is this text; in the input and in
/// the text names in brackets stand for texts.
pub fn root_scans_to(alloc: Global, input: &str, text: &str) -> Result<bool, NoMemory> {
    let mut source = source_of(alloc, input, &CALM)?;
    match read_input::<MemSource, ScanKind>(alloc, &mut source) {
        Ok(request) => has_line(alloc, &request, text),
        Err(InputError::NoMemory) => Err(NoMemory),
        Err(_) => Ok(false),
    }
}

fn has_line(alloc: Global, request: &InputLines<Manifest>, text: &str) -> Result<bool, NoMemory> {
    let Some(root) = root_of(alloc, request.first.layers.as_slice())? else {
        return Ok(false);
    };
    is_found(alloc, request, &root, text)
}

/// Whether the line of what is found in a root is this text.
fn is_found(
    alloc: Global,
    request: &InputLines<Manifest>,
    root: &Root,
    text: &str,
) -> Result<bool, NoMemory> {
    let feed = Text::of(alloc, "scan")?;
    let found = match scan_root(alloc, root, request.records.as_slice(), &feed) {
        Ok(found) => found,
        Err(ScanError::NoMemory) => return Err(NoMemory),
        Err(_) => return Ok(false),
    };
    let line = good_line(alloc, &request.first.hash, found.as_slice())?;
    let rest = after_one_of(alloc, line.as_bytes(), &[text])?;
    Ok(matches!(rest, Some([])))
}

/// The root of layers, the base first, or none if one of them is absent or malformed.
fn root_of(alloc: Global, layers: &[Digest]) -> Result<Option<Root>, NoMemory> {
    let mut root = Root::empty(alloc);
    for layer in layers {
        let Some(tree) = tree_of(alloc, layer)? else {
            return Ok(None);
        };
        match root.lay(alloc, &tree) {
            Ok(()) => {}
            Err(OverlayError::NoMemory) => return Err(NoMemory),
            Err(OverlayError::BadTree(_)) => return Ok(None),
        }
    }
    Ok(Some(root))
}

fn tree_of(alloc: Global, layer: &Digest) -> Result<Option<Tree>, NoMemory> {
    let mut desk = TableDesk::<Layers>::new();
    match load(alloc, &mut desk, layer) {
        Ok(tree) => Ok(tree),
        Err(DeskFault::NoMemory) => Err(NoMemory),
        Err(DeskFault::Failed) => Ok(None),
    }
}
