ghost use Rattle.std.specs.Prelude.{◌≡◌, IfOk};
ghost use Rattle.cv_facts.specs.Order.{IsOrdered};
ghost use Rattle.cv_facts.specs.Reduction.{IsRight};

use crate::reduction::Shape;
use cv_base::{Digest, NoMemory};
use cv_desk::Desk;
use std::alloc::Global;
use std::marker::{Model, PhantomData};
use std::sync::Arc;

/// The digest and the shape of a layer. If the type of the desk states the layer's tree, the shape is that tree's. The lists of the
/// shape are in order in any case. Copies share the shape.
#[derive(Drop)]
pub struct LayerFacts<D: Desk> {
    digest: Digest,
    shape: Arc<Shape, Global>,
    of: PhantomData<D>,
}

impl<D: Desk> Model for LayerFacts<D> {
    ghost use Rattle.std.specs.Arc.{arc_value};
    ghost use Rattle.cv_facts.specs.Order.{IsOrdered};
    ghost use Rattle.cv_facts.specs.Reduction.{IsRight, Known};

    ghost Value = { Known };

    ghost view = { λ f. record { digest = f.digest; shape = arc_value f.shape } };

    ghost invariant = { λ f. IsRight D.tree (record { digest = f.digest; shape = arc_value f.shape }) × IsOrdered (arc_value f.shape) };
}

impl<D: Desk> LayerFacts<D> {
    /// The facts of a layer of this shape.
    pub(crate) fn of(alloc: Global, digest: Digest, shape: Shape) -> Result<LayerFacts<D>, NoMemory>
        requires right { IsRight D.tree (record { digest = digest; shape = shape }) }
        requires ordered { IsOrdered shape }
        ensures { IfOk result (λ facts. facts ≡ record { digest = digest; shape = shape }) }
    {
        Ok(LayerFacts {
            digest,
            shape: Arc::new(alloc, shape)?,
            of: PhantomData,
        })
    }

    /// The digest of the layer.
    pub fn digest(&self) -> Digest
        ensures { result ≡ self.now.digest }
    {
        self.digest
    }

    /// The shape of the layer.
    pub fn shape(&self) -> &Shape
        ensures { result.now ≡ self.now.shape }
    {
        &self.shape
    }

    /// The same facts, which share the shape.
    pub fn share(&self) -> Result<LayerFacts<D>, NoMemory>
        ensures { IfOk result (λ facts. facts ≡ self.now) }
    {
        Ok(LayerFacts {
            digest: self.digest,
            shape: Arc::try_clone(&self.shape)?,
            of: PhantomData,
        })
    }

    /// The facts are right. For proofs: it has no effect at run time.
    pub fn known_law(&self)
        ensures { IsRight D.tree self.now }
    {
        let _digest = &self.digest;
    }

    /// The lists of the shape are in order. For proofs: it has no effect at run time.
    pub fn ordered_law(&self)
        ensures { IsOrdered self.now.shape }
    {
        let _digest = &self.digest;
    }
}
