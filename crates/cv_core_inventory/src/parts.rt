ghost use Rattle.std.specs.Prelude.{◌≡◌, IfOk};
ghost use Rattle.cv_core_inventory.specs.Holdings.{feed_table};
ghost use Rattle.cv_core_inventory.specs.code.Kept.{IsAlike, IsKept, holdings_of, registrations};

use crate::inventory::Inventory;
use crate::knowledge::Knowledge;
use cv_base::NoMemory;
use cv_core_registry::Registry;
use cv_desk::Desk;
use cv_tree::Share;

impl<D: Desk + Drop> Inventory<D> {
    /// An inventory of these parts.
    pub(crate) fn of(registry: Registry, knowledge: Knowledge<D>) -> Inventory<D>
        requires { IsKept D.tree registry knowledge }
        ensures { result ≡ holdings_of registry knowledge.feeds }
    {
        Inventory {
            registry,
            knowledge,
        }
    }

    /// The inventory with a registry that has the same images, and in which the same layers are indexed.
    pub(crate) fn with_registry(&self, registry: Registry) -> Result<Inventory<D>, NoMemory>
        requires { IsAlike (registrations self.now) registry }
        ensures { IfOk result (λ after. after ≡ holdings_of registry (feed_table self.now)) }
    {
        let knowledge = self.knowledge.share()?;
        Ok(Inventory::of(registry, knowledge))
    }
}
