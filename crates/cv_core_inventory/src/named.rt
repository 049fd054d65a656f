ghost use Rattle.std.specs.Prelude.{◌≡◌, [], ◌∷◌, ◌++◌, is_none, if◌then◌else◌, IfOk, OnOk};
ghost use Rattle.std.specs.List.{flat_map};
ghost use Rattle.std.specs.Map.{keys_of};
ghost use Rattle.cv_base.specs.InOrder.{in_order};
ghost use Rattle.cv_base.specs.declared.package.PackageName.{PackageName};
ghost use Rattle.cv_core_machine.specs.State.{with_value, without_value};
ghost use Rattle.cv_core_registry.specs.code.Users.{ArePut, AreTaken, set_at};
ghost use Rattle.cv_match.specs.Findings.{text_cmp};
ghost use Rattle.cv_tree.specs.Entries.{first_entry};

use cv_base::{Digest, NoMemory, PackageName, Text, in_order};
use cv_tree::{Share, Tree};
use std::alloc::Global;

/// For each name of a package the set of the layers whose files have it. A name that no layer has has no set.
pub type Named = Tree<Text, Tree<Digest, ()>>;

/// The layers in the sets of the names of these keys, in ascending order, each once.
pub fn layers_named(
    alloc: Global,
    named: &Named,
    keys: &[PackageName],
) -> Result<Vec<Digest>, NoMemory>
    ensures { IfOk result (λ layers. layers.items ≡ in_order text_cmp (flat_map (λ (key : PackageName). keys_of (set_at named.now key.name)) keys.now)) }
{
    let mut layers = Vec::new(alloc);
    for key in keys {
        push_layers(alloc, named, &key.name, &mut layers)?;
    }
    in_order(alloc, layers)
}

/// Adds the layers in the set of a name.
fn push_layers(
    alloc: Global,
    named: &Named,
    name: &Text,
    layers: &mut Vec<Digest>,
) -> Result<(), NoMemory>
    ensures { OnOk result (layers.new.items ≡ layers.old.items ++ keys_of (set_at named.now name.now)) }
{
    let Some(found) = named.get(name) else {
        return Ok(());
    };
    push_all(layers, found.keys(alloc)?)
}

/// Adds digests.
pub fn push_all(to: &mut Vec<Digest>, more: Vec<Digest>) -> Result<(), NoMemory>
    ensures { OnOk result (to.new.items ≡ to.old.items ++ more.items) }
{
    for digest in more {
        to.push(digest)?;
    }
    Ok(())
}

/// The sets with a layer in those of these names.
pub fn put_all(
    alloc: Global,
    named: &Named,
    names: &[Text],
    layer: Digest,
) -> Result<Named, NoMemory>
    ensures { IfOk result (ArePut names.now layer named.now) }
{
    let [name, rest @ ..] = names else {
        return named.share();
    };
    let next = put(alloc, named, name, layer)?;
    put_all(alloc, &next, rest, layer)
}

/// The sets with a layer in that of a name.
fn put(alloc: Global, named: &Named, name: &Text, layer: Digest) -> Result<Named, NoMemory>
    ensures { IfOk result (ArePut (name.now ∷ []) layer named.now) }
{
    let layers = set_with(alloc, named, name, layer)?;
    with_set(alloc, named, name, layers)
}

/// The sets with this one for a name.
fn with_set(
    alloc: Global,
    named: &Named,
    name: &Text,
    layers: Tree<Digest, ()>,
) -> Result<Named, NoMemory>
    ensures { IfOk result (λ after. after ≡ with_value named.now name.now layers) }
{
    let name = name.share()?;
    named.set(alloc, name, layers)
}

/// The set of a name with a layer.
fn set_with(
    alloc: Global,
    named: &Named,
    name: &Text,
    layer: Digest,
) -> Result<Tree<Digest, ()>, NoMemory>
    ensures { IfOk result (λ layers. layers ≡ with_value (set_at named.now name.now) layer tt) }
{
    match named.get(name) {
        None => Tree::new().set(alloc, layer, ()),
        Some(layers) => layers.set(alloc, layer, ()),
    }
}

/// The sets without a layer in those of these names.
pub fn take_all(
    alloc: Global,
    named: &Named,
    names: &[Text],
    layer: &Digest,
) -> Result<Named, NoMemory>
    ensures { IfOk result (AreTaken names.now layer.now named.now) }
{
    let [name, rest @ ..] = names else {
        return named.share();
    };
    let next = take(alloc, named, name, layer)?;
    take_all(alloc, &next, rest, layer)
}

/// The sets without a layer in that of a name.
fn take(alloc: Global, named: &Named, name: &Text, layer: &Digest) -> Result<Named, NoMemory>
    ensures { IfOk result (AreTaken (name.now ∷ []) layer.now named.now) }
{
    match named.get(name) {
        None => named.share(),
        Some(layers) => {
            named.ascends();
            layers.ascends();
            let rest = layers.without(alloc, layer)?;
            with_rest(alloc, named, name, rest)
        }
    }
}

/// The sets with this one for a name, or without the name if it is empty.
fn with_rest(
    alloc: Global,
    named: &Named,
    name: &Text,
    rest: Tree<Digest, ()>,
) -> Result<Named, NoMemory>
    ensures { IfOk result (λ after. after ≡ (if is_none (first_entry rest) then without_value named.now name.now else with_value named.now name.now rest)) }
{
    if rest.is_empty() {
        named.without(alloc, name)
    } else {
        with_set(alloc, named, name, rest)
    }
}
