ghost use Rattle.std.specs.Prelude.{◌≡◌, ◌^◌, ◌<◌, ◌≤◌, ◌∷◌, [], length, map, IfOk, IfErr, IfSome, None};
ghost use Rattle.cv_base.specs.Answer.{Gives, MatchesUnlessOutOfMemory};
ghost use Rattle.cv_base.specs.Path.{Path};
ghost use Rattle.cv_overlay.specs.Lay.{node_at, root_of};
ghost use Rattle.cv_packages.specs.Packages.{packages};
ghost use Rattle.cv_scan.specs.Faults.{scan_fault};
ghost use Rattle.cv_scan.specs.Layers.{IsScanAnswer, no_seals};
ghost use Rattle.cv_scan.specs.code.Layers.{IsBadTree, is_image_memory, refusing, tree_in};
ghost use Rattle.cv_scan.specs.code.Plain.{plain_packages_of, plain_scan};
ghost use Rattle.cv_scan.specs.Image.{as_image, bad_tree_from, trees_from};
ghost use Rattle.cv_scan.specs.Scan.{root_findings, with_findings};

use crate::error::ScanError;
use crate::layer_error::ImageError;
use crate::loader::{LoadedLayer, Loader, tree_of};
use crate::reader::read_layers;
use cv_base::{Advisory, Digest, Finding, MAX_LAYERS, NoMemory, Seq, Text, Tree, TreeEntry};
use cv_desk::Desk;
use cv_match_feed::find_all;
use cv_overlay::{ImageFault, Root};
use cv_packages::read_packages;
use std::alloc::Global;

/// Scans an image: loads each distinct layer once, in the order of the image, and returns the findings of the packages of
/// its root with the records of the feed. Layers are given with the base first. `Bad` comes if all layers were loaded and
/// the image cannot be scanned: a layer is missing, a tree is not good, or a package file is refused. `Desk` names the
/// layer that the desk failed at. Neither it nor `NoMemory` says anything of the image.
pub fn scan_image<D: Desk>(
    alloc: Global,
    desk: &mut D,
    layers: &[Digest],
    feed: &Text,
    advisories: &[Advisory],
) -> Result<Seq<Finding>, ImageError>
    requires room { D.listings desk.old < 2 ^ 62 }
    requires at_most_128_layers { length layers.now ≤ MAX_LAYERS }
    ensures { IsScanAnswer D.tree D.listings D.faults desk.old desk.new layers.now (no_seals layers.now) ((feed.now, advisories.now) ∷ []) result }
{
    match read_layers::<D, Loader>(alloc, desk, layers) {
        Ok(loaded) => scan_loaded(alloc, layers, &loaded, feed, advisories),
        Err(error) => Err(error),
    }
}

/// Scans an image whose layers were loaded.
fn scan_loaded(
    alloc: Global,
    layers: &[Digest],
    loaded: &[LoadedLayer],
    feed: &Text,
    advisories: &[Advisory],
) -> Result<Seq<Finding>, ImageError>
    requires at_most_128_layers { length layers.now ≤ MAX_LAYERS }
    ensures { Gives is_image_memory (λ found. found) result (refusing (plain_scan (map (tree_in loaded.now) layers.now) ((feed.now, advisories.now) ∷ []))) }
{
    match trees_of(alloc, layers, loaded) {
        Ok(trees) => scan_trees(alloc, &trees, feed, advisories),
        Err(error) => Err(error),
    }
}

/// Scans an image of these trees.
fn scan_trees(
    alloc: Global,
    trees: &[&Tree],
    feed: &Text,
    advisories: &[Advisory],
) -> Result<Seq<Finding>, ImageError>
    requires at_most_128_layers { length trees.now ≤ MAX_LAYERS }
    ensures { Gives is_image_memory (λ found. found) result (refusing (with_findings ((feed.now, advisories.now) ∷ []) (plain_packages_of (map (λ tree. tree.now.entries) trees.now)))) }
{
    match lay_trees(alloc, trees) {
        Ok(root) => scan_laid(alloc, root.entries(), feed, advisories),
        Err(error) => Err(error),
    }
}

/// Scans an image whose root has these entries.
#[tactic(auto, using(crate::proofs::Errors::packages_given))]
fn scan_laid(
    alloc: Global,
    entries: &[TreeEntry],
    feed: &Text,
    advisories: &[Advisory],
) -> Result<Seq<Finding>, ImageError>
    ensures { Gives is_image_memory (λ found. found) result (refusing (with_findings ((feed.now, advisories.now) ∷ []) (as_image (packages entries.now)))) }
{
    match read_packages(alloc, entries) {
        Ok(packages) => Ok(find_all(alloc, packages.as_slice(), feed, advisories)?),
        Err(error) => Err(ImageError::from(error)),
    }
}

/// The trees of all layers, or the first layer that is missing.
#[tactic(auto, using(crate::proofs::LaidTrees::onto_more, crate::proofs::LaidTrees::onto_none))]
fn trees_of<'a>(
    alloc: Global,
    layers: &[Digest],
    loaded: &'a [LoadedLayer],
) -> Result<Vec<&'a Tree>, ImageError>
    requires at_most_128_layers { length layers.now ≤ MAX_LAYERS }
    ensures { Gives is_image_memory (λ trees. map (λ tree. tree.now.entries) trees.items) result (refusing (trees_from 0 (map (tree_in loaded.now) layers.now))) }
{
    let mut trees = Vec::new(alloc);
    for (index, layer) in layers.iter().enumerate() {
        match tree_of(loaded, layer) {
            Some(tree) => trees.push(tree).map_err(NoMemory::from)?,
            None => return Err(ImageError::Bad(ImageFault::NoLayer(index as u32))),
        }
    }
    Ok(trees)
}

/// The root of an image of these trees, or the first one that is not good.
fn lay_trees(alloc: Global, trees: &[&Tree]) -> Result<Root, ImageError>
    requires at_most_128_layers { length trees.now ≤ MAX_LAYERS }
    ensures laid { IfOk result (λ root. (p : Path) → node_at root p ≡ root_of (map (λ tree. tree.now.entries) trees.now) p) }
    ensures good { IfOk result (λ _. bad_tree_from 0 (map (λ tree. tree.now.entries) trees.now) ≡ None) }
    ensures refused { IfErr result (IsBadTree (bad_tree_from 0 (map (λ tree. tree.now.entries) trees.now))) }
{
    let mut root = Root::empty(alloc);
    for (index, tree) in trees.iter().enumerate() {
        match root.lay(alloc, tree) {
            Ok(()) => {}
            Err(error) => return Err(ImageError::of_overlay(index as u32, error)),
        }
    }
    Ok(root)
}

/// The findings of the packages of a root with the records of a feed. The first package file that is above the limit, or has
/// a bad line, is the error.
#[tactic(auto, using(crate::proofs::Errors::root_given))]
pub fn scan_root(
    alloc: Global,
    root: &Root,
    advisories: &[Advisory],
    feed: &Text,
) -> Result<Seq<Finding>, ScanError>
    ensures { MatchesUnlessOutOfMemory scan_fault (λ found. found) result (root_findings root.now ((feed.now, advisories.now) ∷ [])) }
{
    match read_packages(alloc, root.entries()) {
        Ok(packages) => Ok(find_all(alloc, packages.as_slice(), feed, advisories)?),
        Err(error) => Err(ScanError::from(error)),
    }
}
