ghost use Rattle.std.specs.Prelude.{◌≡◌, ◌^◌, ◌<◌, ◌≤◌, false, length, map, IfSome};
ghost use Rattle.cv_scan.specs.Distinct.{distinct};
ghost use Rattle.cv_scan.specs.Failed.{is_desk_fault};
ghost use Rattle.cv_scan.specs.Image.{image_packages};
ghost use Rattle.cv_scan.specs.Layers.{stored_layers};
ghost use Rattle.cv_scan_image.specs.Packages.{IsListAnswer, IsListed};
ghost use Rattle.cv_scan_image.specs.code.Packages.{packages_in};

use crate::indexer::Indexer;
use crate::places::places_of;
use cv_base::{Digest, MAX_LAYERS, Package, Seq};
use cv_coalesce::{ImagePackages, coalesce};
use cv_desk::Desk;
use cv_facts::LayerFacts;
use cv_scan::{ImageError, read_layers};
use std::alloc::Global;

/// The packages of an image: indexes each distinct layer once, in the order of the image. Layers are given with the base first, and
/// for each the seal that is stated, if one is. The errors are those of a scan.
#[tactic(auto, using(crate::proofs::ListLemmas::read_answer, crate::proofs::ListLemmas::unread_answer))]
pub fn list_packages<D: Desk>(
    alloc: Global,
    desk: &mut D,
    layers: &[Digest],
    seals: &[Option<Digest>],
) -> Result<Seq<Package>, ImageError>
    requires room { D.listings desk.old < 2 ^ 62 }
    requires at_most_128_layers { length layers.now ≤ MAX_LAYERS }
    requires seals { length seals.now ≡ length layers.now }
    ensures { IsListAnswer D.tree D.listings D.faults desk.old desk.new layers.now seals.now result }
{
    match read_layers::<D, Indexer>(alloc, desk, layers) {
        Ok(facts) => packages_of(alloc, &facts, layers, seals),
        Err(error) => Err(error),
    }
}

/// The packages of an image whose distinct layers were indexed.
fn packages_of<D: Desk>(
    alloc: Global,
    facts: &[LayerFacts<D>],
    layers: &[Digest],
    seals: &[Option<Digest>],
) -> Result<Seq<Package>, ImageError>
    requires at_most_128_layers { length layers.now ≤ MAX_LAYERS }
    requires seals { length seals.now ≡ length layers.now }
    requires indexed { map (λ f. f.digest) facts.now ≡ distinct layers.now }
    ensures answer { IfSome (stored_layers D.tree layers.now) (λ stored. IsListed result (image_packages stored seals.now)) }
    ensures desk { is_desk_fault result ≡ false }
{
    let places = places_of(alloc, facts, layers)?;
    let packages = coalesce(alloc, facts, &places, seals)?;
    good_packages(packages)
}

/// The packages of a good image, or why it has none.
fn good_packages(packages: ImagePackages) -> Result<Seq<Package>, ImageError>
    ensures answer { IsListed result (packages_in packages) }
    ensures desk { is_desk_fault result ≡ false }
{
    match packages {
        ImagePackages::Good(packages) => Ok(packages),
        ImagePackages::Bad(fault) => Err(ImageError::Bad(fault)),
    }
}
