ghost use Rattle.std.specs.Prelude.{◌≡◌, ◌<◌, ◌≤◌, ◌^◌, length, map, IfOk};
ghost use Rattle.std.specs.Option.{option_map};
ghost use Rattle.serde_json.specs.View.{items_of, view};
ghost use Rattle.cv_base.specs.Answer.{MatchesUnlessOutOfMemory};
ghost use Rattle.cv_request.specs.Fault.{fault_of, refusing};
ghost use Rattle.cv_request.specs.Manifest.{checked_layers, digest_or, layer_of, layers_from, layers_in, manifest_of, manifest_with, seal_or};

use crate::error::{RequestError, RequestWhat};
use crate::member::{list_or, object_or};
use crate::node::RequestNode;
use cv_base::{Digest, MAX_LAYERS, Manifest, NoMemory, Seq};
use cv_osv::Texts;
use serde_json::Value;
use std::alloc::Global;

/// Layers, each a digest and its stated seal.
type SealedLayers = Vec<(Digest, Option<Digest>)>;

/// Reads the manifest of an image, as Clair v4 takes it: its digest, and those of its 1 to 128 layers, each with the seal that
/// is stated for it, if any. `uri`, `headers` and unknown members are ignored. The first fault is the answer, in this order: the
/// object, `hash`, the list `layers`, the count of its items, and each of them from the first on, its `hash` before its `seal`.
pub fn read_manifest(alloc: Global, value: &Value) -> Result<Manifest, RequestError>
    ensures value { MatchesUnlessOutOfMemory fault_of (λ manifest. manifest) result (refusing (manifest_of (view value.now))) }
    ensures at_most_128_layers { IfOk result (λ manifest. length manifest.layers ≤ MAX_LAYERS) }
    ensures as_many_seals { IfOk result (λ manifest. length manifest.seals ≡ length manifest.layers) }
{
    manifest_of(alloc, value)
}

/// Reads the manifest of an image as `read_manifest` does, from a value of any kind.
#[tactic(auto, unfolding(crate::specs::Manifest::manifest_of), using(crate::proofs::Layers::manifest_fails))]
pub(crate) fn manifest_of<V: RequestNode<T>, T: Texts>(
    alloc: Global,
    value: &V,
) -> Result<Manifest, RequestError>
    ensures value { MatchesUnlessOutOfMemory fault_of (λ manifest. manifest) result (refusing (manifest_of (V.data_of value.now))) }
    ensures at_most_128_layers { IfOk result (λ manifest. length manifest.layers ≤ MAX_LAYERS) }
    ensures as_many_seals { IfOk result (λ manifest. length manifest.seals ≡ length manifest.layers) }
{
    object_or(value, RequestWhat::BadManifest)?;
    let hash = digest_or(value.member("hash"), RequestWhat::BadHash)?;
    match read_layers(alloc, value.member("layers")) {
        Ok(layers) => Ok(manifest_with(alloc, hash, layers)?),
        Err(error) => Err(error),
    }
}

/// The manifest with these layers.
fn manifest_with(alloc: Global, hash: Digest, sealed: SealedLayers) -> Result<Manifest, NoMemory>
    ensures { IfOk result (λ manifest. manifest ≡ manifest_with hash sealed.items) }
{
    let mut layers = Vec::new(alloc);
    let mut seals = Vec::new(alloc);
    for (layer, seal) in sealed {
        layers.push(layer)?;
        seals.push(seal)?;
    }
    Ok(Manifest {
        hash,
        layers: Seq::of(layers),
        seals: Seq::of(seals),
    })
}

/// A member that is the text of a digest.
pub(crate) fn digest_or<V: RequestNode<T>, T: Texts>(
    found: Option<&V>,
    bad: RequestWhat,
) -> Result<Digest, RequestWhat>
    ensures { result ≡ digest_or bad (option_map (λ v. V.data_of v.now) found.entry) }
{
    let Some(value) = found else {
        return Err(bad);
    };
    let Some(text) = value.text() else {
        return Err(bad);
    };
    match Digest::read(text.as_bytes()) {
        Ok(digest) => Ok(digest),
        Err(_) => Err(bad),
    }
}

/// The layers of an image by their member.
fn read_layers<V: RequestNode<T>, T: Texts>(
    alloc: Global,
    found: Option<&V>,
) -> Result<SealedLayers, RequestError>
    ensures { MatchesUnlessOutOfMemory fault_of (λ layers. layers.items) result (refusing (layers_in (option_map (λ v. V.data_of v.now) found.entry))) }
{
    let items = list_or(found, RequestWhat::BadLayers)?;
    read_checked(alloc, items)
}

/// At least one layer, and at most 128.
#[tactic(auto, using(crate::proofs::Layers::count_items))]
fn read_checked<V: RequestNode<T>, T: Texts>(
    alloc: Global,
    items: &[V],
) -> Result<SealedLayers, RequestError>
    ensures { MatchesUnlessOutOfMemory fault_of (λ layers. layers.items) result (refusing (checked_layers (items_of (map V.data_of items.now)))) }
{
    if items.is_empty() {
        return Err(RequestError::BadRequest(RequestWhat::NoLayers));
    }
    if items.len() > MAX_LAYERS {
        return Err(RequestError::BadRequest(RequestWhat::TooManyLayers));
    }
    read_each(alloc, items)
}

/// The layers of a list of items.
fn read_each<V: RequestNode<T>, T: Texts>(
    alloc: Global,
    items: &[V],
) -> Result<SealedLayers, RequestError>
    requires { length items.now < 2 ^ 32 }
    ensures { MatchesUnlessOutOfMemory fault_of (λ layers. layers.items) result (refusing (layers_from 0 (items_of (map V.data_of items.now)))) }
{
    let mut layers = Vec::new(alloc);
    let mut index: u32 = 0;
    for item in items {
        layers.push(layer_of(item, index)?)?;
        index += 1;
    }
    Ok(layers)
}

/// The digest of the layer at this index, and its stated seal.
fn layer_of<V: RequestNode<T>, T: Texts>(
    item: &V,
    index: u32,
) -> Result<(Digest, Option<Digest>), RequestWhat>
    ensures { result ≡ layer_of index (V.data_of item.now) }
{
    let layer = digest_or(item.member("hash"), RequestWhat::BadLayer(index))?;
    let seal = seal_or(item.member("seal"), RequestWhat::BadSeal(index))?;
    Ok((layer, seal))
}

/// A seal, which may be absent.
fn seal_or<V: RequestNode<T>, T: Texts>(
    found: Option<&V>,
    bad: RequestWhat,
) -> Result<Option<Digest>, RequestWhat>
    ensures { result ≡ seal_or bad (option_map (λ v. V.data_of v.now) found.entry) }
{
    if found.is_none() {
        return Ok(None);
    }
    Ok(Some(digest_or(found, bad)?))
}
