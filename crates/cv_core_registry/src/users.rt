ghost use Rattle.std.specs.Prelude.{◌≡◌, [], ◌∷◌, is_none, if◌then◌else◌, IfOk};
ghost use Rattle.cv_core_machine.specs.State.{with_value, without_value};
ghost use Rattle.cv_tree.specs.Entries.{first_entry};
ghost use Rattle.cv_core_registry.specs.code.Users.{ArePut, AreTaken, is_used, set_at};

use cv_base::{Digest, NoMemory};
use cv_tree::{Share, Tree};
use std::alloc::Global;

/// For each layer the set of the images that name it. A layer that no image names has no set.
pub type Users = Tree<Digest, Tree<Digest, ()>>;

/// Whether some image names a layer.
pub fn is_used(users: &Users, layer: &Digest) -> bool
    ensures { result ≡ is_used users.now layer.now }
{
    match users.get(layer) {
        None => false,
        Some(images) => !images.is_empty(),
    }
}

/// The sets with an image in those of these layers.
pub fn put_all(
    alloc: Global,
    users: &Users,
    layers: &[Digest],
    image: Digest,
) -> Result<Users, NoMemory>
    ensures { IfOk result (ArePut layers.now image users.now) }
{
    let [layer, rest @ ..] = layers else {
        return users.share();
    };
    let next = put(alloc, users, *layer, image)?;
    put_all(alloc, &next, rest, image)
}

/// The sets with an image in that of a layer.
fn put(alloc: Global, users: &Users, layer: Digest, image: Digest) -> Result<Users, NoMemory>
    ensures { IfOk result (ArePut (layer ∷ []) image users.now) }
{
    let images = set_with(alloc, users, &layer, image)?;
    users.set(alloc, layer, images)
}

/// The set of a layer with an image.
fn set_with(
    alloc: Global,
    users: &Users,
    layer: &Digest,
    image: Digest,
) -> Result<Tree<Digest, ()>, NoMemory>
    ensures { IfOk result (λ images. images ≡ with_value (set_at users.now layer.now) image tt) }
{
    match users.get(layer) {
        None => Tree::new().set(alloc, image, ()),
        Some(images) => images.set(alloc, image, ()),
    }
}

/// The sets without an image in those of these layers.
pub fn take_all(
    alloc: Global,
    users: &Users,
    layers: &[Digest],
    image: &Digest,
) -> Result<Users, NoMemory>
    ensures { IfOk result (AreTaken layers.now image.now users.now) }
{
    let [layer, rest @ ..] = layers else {
        return users.share();
    };
    let next = take(alloc, users, layer, image)?;
    take_all(alloc, &next, rest, image)
}

/// The sets without an image in that of a layer.
fn take(alloc: Global, users: &Users, layer: &Digest, image: &Digest) -> Result<Users, NoMemory>
    ensures { IfOk result (AreTaken (layer.now ∷ []) image.now users.now) }
{
    match users.get(layer) {
        None => users.share(),
        Some(images) => {
            users.ascends();
            images.ascends();
            let rest = images.without(alloc, image)?;
            with_rest(alloc, users, layer, rest)
        }
    }
}

/// The sets with this one for a layer, or without the layer if it is empty.
fn with_rest(
    alloc: Global,
    users: &Users,
    layer: &Digest,
    rest: Tree<Digest, ()>,
) -> Result<Users, NoMemory>
    ensures { IfOk result (λ after. after ≡ (if is_none (first_entry rest) then without_value users.now layer.now else with_value users.now layer.now rest)) }
{
    if rest.is_empty() {
        users.without(alloc, layer)
    } else {
        users.set(alloc, *layer, rest)
    }
}
