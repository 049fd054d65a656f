ghost use Rattle.std.specs.Prelude.{◌≡◌, ◌^◌, ◌<◌, ◌≤◌, ◌∷◌, [], length, IfErr, IfOk};
ghost use Rattle.cv_match.specs.Findings.{findings};
ghost use Rattle.cv_scan.specs.Layers.{IsScanAnswer};

use crate::packages::list_packages;
use cv_base::{Advisory, Digest, Finding, MAX_LAYERS, Package, Seq, Text};
use cv_desk::Desk;
use cv_match_feed::find_all;
use cv_scan::ImageError;
use std::alloc::Global;

/// Scans an image: indexes each distinct layer once, in the order of the image, and returns the findings of the packages of
/// the image with the records of the feed. Layers are given with the base first, and for each the seal that is stated, if one is.
/// `Bad` comes if all layers were indexed and the image cannot be scanned: a layer is missing, a tree is not good, a tree has
/// another seal than the stated one, or a package file is refused. `Desk` names the layer that the desk failed at. Neither it nor
/// `NoMemory` says anything of the image.
#[tactic(auto, using(crate::proofs::ScanLemmas::failed_answer))]
pub fn scan_layers<D: Desk>(
    alloc: Global,
    desk: &mut D,
    layers: &[Digest],
    seals: &[Option<Digest>],
    feed: &Text,
    advisories: &[Advisory],
) -> Result<Seq<Finding>, ImageError>
    requires room { D.listings desk.old < 2 ^ 62 }
    requires at_most_128_layers { length layers.now ≤ MAX_LAYERS }
    requires seals { length seals.now ≡ length layers.now }
    ensures { IsScanAnswer D.tree D.listings D.faults desk.old desk.new layers.now seals.now ((feed.now, advisories.now) ∷ []) result }
{
    match list_packages(alloc, desk, layers, seals) {
        Ok(packages) => find_in(alloc, packages.as_slice(), feed, advisories),
        Err(error) => Err(error),
    }
}

/// The findings of packages with the records of a feed.
fn find_in(
    alloc: Global,
    packages: &[Package],
    feed: &Text,
    advisories: &[Advisory],
) -> Result<Seq<Finding>, ImageError>
    ensures found { IfOk result (λ found. found ≡ findings packages.now ((feed.now, advisories.now) ∷ [])) }
    ensures memory { IfErr result (λ error. error ≡ ImageError.NoMemory) }
{
    Ok(find_all(alloc, packages, feed, advisories)?)
}
