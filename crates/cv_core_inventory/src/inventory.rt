ghost use Rattle.std.specs.Prelude.{◌≡◌, IfOk};
ghost use Rattle.cv_core_inventory.specs.Holdings.{IsRegular, nothing};

use crate::knowledge::Knowledge;
use cv_base::NoMemory;
use cv_core_machine::Limits;
use cv_core_registry::Registry;
use cv_desk::Desk;
use cv_tree::Share;
use std::alloc::Global;
use std::marker::Model;

/// Images, layers and feeds. Contracts see what it holds as the machine has it. Beside that it knows the facts of the layers that
/// are indexed, and the outcome of each image, which is that of its layers' facts, their stated seals and the feeds as they are.
pub struct Inventory<D: Desk> {
    pub(crate) registry: Registry,
    pub(crate) knowledge: Knowledge<D>,
}

/// Written out, so that the crates above call it, and do not prove anew how each part is dropped.
impl<D: Desk + Drop> Drop for Inventory<D> {
    fn drop(self) {
        let Inventory {
            registry: _,
            knowledge: _,
        } = self;
    }
}

impl<D: Desk> Model for Inventory<D> {
    ghost use Rattle.cv_core_inventory.specs.Holdings.{Holdings};
    ghost use Rattle.cv_core_inventory.specs.code.Kept.{IsKept, holdings_of};

    ghost Value = { Holdings };

    ghost view = { λ i. holdings_of i.registry i.knowledge.feeds };

    ghost invariant = { λ i. IsKept D.tree i.registry i.knowledge };
}

impl<D: Desk + Drop> Inventory<D> {
    /// No images and no feeds. There may be as many as the limits say.
    pub fn new(alloc: Global, limits: Limits) -> Result<Inventory<D>, NoMemory>
        ensures { IfOk result (λ inventory. inventory ≡ nothing limits) }
    {
        let knowledge = Knowledge::new(alloc, limits.feeds)?;
        Ok(Inventory::of(Registry::new(limits.images), knowledge))
    }

    /// What it holds is consistent. For proofs: it has no effect at run time.
    pub fn regular_law(&self)
        ensures { IsRegular self.now }
    {
        self.registry.regular_law();
        self.knowledge.sorted_law();
    }
}

/// An equal inventory, which shares all parts. It takes no memory, and fails only if a count of owners is saturated.
impl<D: Desk + Drop> Share for Inventory<D> {
    fn share(&self) -> Result<Inventory<D>, NoMemory> {
        let registry = self.registry.share()?;
        let knowledge = self.knowledge.share()?;
        Ok(Inventory {
            registry,
            knowledge,
        })
    }
}
