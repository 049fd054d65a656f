ghost use Rattle.std.specs.Prelude.{◌≡◌, ◌<◌, length, IfOk};

use cv_base::{Digest, Manifest, NoMemory, Seq};
use std::alloc::Global;

/// How many layers an image has.
pub const LAYERS: u64 = 10;

/// How many of them, the lowest ones, it shares with the other images of its group.
const SHARED: u64 = 5;

/// How many images a group has.
const GROUP: u64 = 8;

/// An odd number that spreads others over all numbers of 64 bits.
const SPREAD: u64 = 0x9e37_79b9_7f4a_7c15;

/// What a digest is of.
#[derive(Clone, Copy)]
enum Of {
    Image,
    SharedLayer,
    Layer,
}

/// The manifest of an image. The images of a group of eight share five of their ten layers.
pub fn manifest(alloc: Global, image: u32) -> Result<Manifest, NoMemory>
    ensures layers { IfOk result (λ manifest. length manifest.layers ≡ 10) }
    ensures seals { IfOk result (λ manifest. length manifest.seals ≡ 10) }
{
    manifest_over(alloc, image, image, image)
}

/// The manifest of an image that has the layers of a lower image, but for the last layer, which is an upper image's.
pub fn manifest_over(
    alloc: Global,
    image: u32,
    lower: u32,
    upper: u32,
) -> Result<Manifest, NoMemory>
    ensures layers { IfOk result (λ manifest. length manifest.layers ≡ 10) }
    ensures seals { IfOk result (λ manifest. length manifest.seals ≡ 10) }
{
    let mut layers = Vec::new(alloc);
    for index in 0..LAYERS - 1 {
        layers.push(layer(lower, index))?;
    }
    layers.push(last_layer(upper))?;
    unsealed(alloc, hash(image), layers)
}

/// The manifest of an image of these layers, which states no seal.
pub fn unsealed(alloc: Global, hash: Digest, layers: Vec<Digest>) -> Result<Manifest, NoMemory>
    ensures layers { IfOk result (λ manifest. manifest.layers ≡ layers.items) }
    ensures seals { IfOk result (λ manifest. length manifest.seals ≡ length layers.items) }
{
    let seals = vec![in alloc; None; layers.len()]?;
    Ok(Manifest {
        hash,
        layers: Seq::of(layers),
        seals: Seq::of(seals),
    })
}

/// The hash of an image.
pub fn hash(image: u32) -> Digest {
    digest(Of::Image, u64::from(image))
}

/// The last layer of an image, which no other image has.
pub fn last_layer(image: u32) -> Digest {
    layer(image, LAYERS - 1)
}

/// The layer of an image at an index.
fn layer(image: u32, index: u64) -> Digest
    requires { index < LAYERS }
{
    let image = u64::from(image);
    if index < SHARED {
        digest(Of::SharedLayer, image / GROUP * LAYERS + index)
    } else {
        digest(Of::Layer, image * LAYERS + index)
    }
}

/// The digest of a number. Digests of successive numbers are in no order.
fn digest(of: Of, number: u64) -> Digest {
    let mut bytes = [0; 32];
    bytes[..8].copy_from_slice(&number.wrapping_mul(SPREAD).to_be_bytes());
    bytes[8..16].copy_from_slice(&number.to_be_bytes());
    bytes[16] = of as u8;
    Digest::of(bytes)
}

/// The number of a digest.
pub fn number_of(digest: &Digest) -> u64 {
    let mut number = [0; 8];
    number.copy_from_slice(&digest.bytes()[8..16]);
    u64::from_be_bytes(number)
}
