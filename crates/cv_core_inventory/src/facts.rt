ghost use Rattle.std.specs.Prelude.{◌≡◌, [], ℕ, false, List, IfOk};
ghost use Rattle.std.specs.List.{list_any};
ghost use Rattle.std.specs.List.Sorted.{IsStrictlySortedBy};
ghost use Rattle.std.specs.Map.{keys_of};
ghost use Rattle.cv_base.specs.Texts.{has_text};
ghost use Rattle.cv_base.specs.declared.package.PackageName.{PackageName};
ghost use Rattle.cv_core_machine.specs.State.{value_at, with_value, without_value};
ghost use Rattle.cv_core_outcome.specs.Outcome.{has_facts};
ghost use Rattle.cv_layer_names.specs.Names.{layer_names};
ghost use Rattle.cv_match.specs.Findings.{text_cmp};
ghost use Rattle.cv_core_inventory.specs.code.Names.{AreNamed, has_name};

use crate::named::{Named, layers_named, put_all, take_all};
use cv_base::{Digest, NoMemory, PackageName, Text};
use cv_desk::Desk;
use cv_facts::LayerFacts;
use cv_layer_names::layer_names;
use cv_tree::{Share, Shared, Tree};
use std::alloc::Global;
use std::marker::Model;

/// The facts of layers by digest. Beside them it keeps, for each name of a package, the set of the layers whose files have it, so
/// that the layers that an update may concern are found without looking at the others.
pub struct Facts<D: Desk> {
    layers: FactTree<D>,
    named: Named,
}

/// The facts of layers, by digest.
pub type FactTree<D> = Tree<Digest, Shared<LayerFacts<D>>>;

/// Written out, so that the crates above call it, and do not prove anew how each part is dropped.
impl<D: Desk + Drop> Drop for Facts<D> {
    fn drop(self) {
        let Facts {
            layers: _,
            named: _,
        } = self;
    }
}

impl<D: Desk> Model for Facts<D> {
    ghost use Rattle.cv_core_outcome.specs.Outcome.{FactTable};
    ghost use Rattle.cv_core_inventory.specs.code.Names.{AreNamed};

    ghost Value = { FactTable };

    ghost view = { λ f. f.layers };

    ghost invariant = { λ f. AreNamed f.layers f.named };
}

impl<D: Desk + Drop> Facts<D> {
    /// No facts. It takes no memory.
    pub fn new() -> Facts<D>
        ensures { result ≡ [] }
    {
        Facts::of(Tree::new(), Tree::new())
    }

    fn of(layers: FactTree<D>, named: Named) -> Facts<D>
        requires { AreNamed layers named }
        ensures { result ≡ layers }
    {
        Facts { layers, named }
    }

    /// The facts by digest.
    pub fn tree(&self) -> &FactTree<D>
        ensures { result.now ≡ self.now }
    {
        &self.layers
    }

    /// Facts are in ascending order of the digests. For proofs: it has no effect at run time.
    pub fn sorted_law(&self)
        ensures { IsStrictlySortedBy text_cmp (keys_of self.now) }
    {
        self.layers.ascends();
    }

    /// The facts with those of a layer that had none. The time is that of the names in the layer's files, times the logarithm of
    /// what is known.
    pub fn with(&self, alloc: Global, known: LayerFacts<D>) -> Result<Facts<D>, NoMemory>
        requires new { has_facts self.now known.digest ≡ false }
        ensures { IfOk result (λ after. after ≡ with_value self.now known.digest known) }
    {
        let named = named_with(alloc, &self.layers, &self.named, &known)?;
        self.with_named(alloc, known, named)
    }

    /// The facts with those of a layer, where these are the sets of names after it.
    fn with_named(
        &self,
        alloc: Global,
        known: LayerFacts<D>,
        named: Named,
    ) -> Result<Facts<D>, NoMemory>
        requires { AreNamed (with_value self.now known.digest known) named }
        ensures { IfOk result (λ after. after ≡ with_value self.now known.digest known) }
    {
        let layer = known.digest();
        let shared = Shared::of(alloc, known)?;
        let layers = self.layers.set(alloc, layer, shared)?;
        Ok(Facts::of(layers, named))
    }

    /// The facts without those of a layer. The time is as for `with`.
    pub fn without(&self, alloc: Global, layer: &Digest) -> Result<Facts<D>, NoMemory>
        ensures { IfOk result (λ after. after ≡ without_value self.now layer.now) }
    {
        let named = named_without(alloc, &self.layers, &self.named, layer)?;
        let layers = self.layers.without(alloc, layer)?;
        Ok(Facts::of(layers, named))
    }

    /// The layers that have facts and a name of one of these keys, of whatever ecosystem, in ascending order. The time is that of
    /// these layers and keys, whatever else is known.
    pub fn layers_named(&self, alloc: Global, keys: &[PackageName]) -> Result<Vec<Digest>, NoMemory>
        ensures sorted { IfOk result (λ layers. IsStrictlySortedBy text_cmp layers.items) }
        ensures named { IfOk result (λ layers. (layer : List ℕ) → has_text layers.items layer ≡ list_any (λ (key : PackageName). has_name (value_at self.now layer) key.name) keys.now) }
    {
        let layers = layers_named(alloc, &self.named, keys)?;
        Ok(layers)
    }
}

/// The sets of names with a layer in those of its names, where it had no facts.
fn named_with<D: Desk + Drop>(
    alloc: Global,
    layers: &FactTree<D>,
    named: &Named,
    known: &LayerFacts<D>,
) -> Result<Named, NoMemory>
    requires named { AreNamed layers.now named.now }
    requires new { has_facts layers.now known.now.digest ≡ false }
    ensures { IfOk result (AreNamed (with_value layers.now known.now.digest known.now)) }
{
    let names = names_of(alloc, known)?;
    put_all(alloc, named, &names, known.digest())
}

/// The sets of names without a layer in those of its names.
fn named_without<D: Desk + Drop>(
    alloc: Global,
    layers: &FactTree<D>,
    named: &Named,
    layer: &Digest,
) -> Result<Named, NoMemory>
    requires { AreNamed layers.now named.now }
    ensures { IfOk result (AreNamed (without_value layers.now layer.now)) }
{
    layers.ascends();
    match layers.get(layer) {
        None => named.share(),
        Some(known) => {
            let names = names_of(alloc, known.value())?;
            take_all(alloc, named, &names, layer)
        }
    }
}

/// The names of the packages of a layer's files.
fn names_of<D: Desk + Drop>(alloc: Global, known: &LayerFacts<D>) -> Result<Vec<Text>, NoMemory>
    ensures { IfOk result (λ names. names.items ≡ layer_names known.now.shape) }
{
    layer_names(alloc, known.shape())
}

/// Equal facts, which share all parts. It takes no memory, and fails only if a count of owners is saturated.
impl<D: Desk + Drop> Share for Facts<D> {
    fn share(&self) -> Result<Facts<D>, NoMemory> {
        let layers = self.layers.share()?;
        let named = self.named.share()?;
        Ok(Facts { layers, named })
    }
}
