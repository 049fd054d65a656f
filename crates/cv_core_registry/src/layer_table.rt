ghost use Rattle.std.specs.Prelude.{◌≡◌, [], is_some, IfOk};
ghost use Rattle.cv_core_machine.specs.Layers.{queued};
ghost use Rattle.cv_core_machine.specs.State.{value_at, with_value, without_value};
ghost use Rattle.cv_core_registry.specs.code.Waiting.{IsWaitingSet};

use crate::layer_status::LayerStatus;
use cv_base::{Digest, NoMemory};
use cv_core_machine::Status;
use cv_tree::{Share, Tree};
use std::alloc::Global;
use std::marker::Model;

/// The status of each layer that a registered image names or that is claimed. Contracts see it as the table of the machine.
/// Beside it, it keeps the set of the layers that wait for a worker, so that these are found without a walk over the others.
pub struct LayerTable {
    statuses: Tree<Digest, LayerStatus>,
    waiting: Tree<Digest, ()>,
}

/// Written out, so that the registry calls it, and does not prove anew how each part is dropped.
impl Drop for LayerTable {
    fn drop(self) {
        let LayerTable {
            statuses: _,
            waiting: _,
        } = self;
    }
}

impl Model for LayerTable {
    ghost use Rattle.cv_core_machine.specs.State.{Layers};
    ghost use Rattle.cv_core_registry.specs.code.Waiting.{IsWaitingSet};

    ghost Value = { Layers };

    ghost view = { λ t. t.statuses };

    ghost invariant = { λ t. IsWaitingSet t.statuses t.waiting };
}

impl LayerTable {
    /// The table without layers. It takes no memory.
    pub fn new() -> LayerTable
        ensures { result ≡ [] }
    {
        LayerTable {
            statuses: Tree::new(),
            waiting: Tree::new(),
        }
    }

    /// The status of a layer, or None if it is not in the table.
    pub fn get(&self, layer: &Digest) -> Option<Status>
        ensures { result ≡ value_at self.now layer.now }
    {
        let layer_status = self.statuses.get(layer)?;
        Some(layer_status.status)
    }

    /// Whether a layer is in the table.
    pub fn contains(&self, layer: &Digest) -> bool
        ensures { result ≡ is_some (value_at self.now layer.now) }
    {
        self.statuses.contains(layer)
    }

    /// The set of the layers that wait for a worker, after a layer has this status.
    fn waiting_with(
        &self,
        alloc: Global,
        layer: Digest,
        status: Status,
    ) -> Result<Tree<Digest, ()>, NoMemory>
        ensures { IfOk result (λ waiting. IsWaitingSet (with_value self.now layer status) waiting) }
    {
        if LayerStatus::of(status).is_queued() {
            self.waiting.set(alloc, layer, ())
        } else {
            self.waiting.ascends();
            self.waiting.without(alloc, &layer)
        }
    }

    /// The table with this status of a layer.
    pub fn set(&self, alloc: Global, layer: Digest, status: Status) -> Result<LayerTable, NoMemory>
        ensures { IfOk result (λ t. t ≡ with_value self.now layer status) }
    {
        let waiting = self.waiting_with(alloc, layer, status)?;
        let statuses = self.statuses.set(alloc, layer, LayerStatus::of(status))?;
        Ok(LayerTable { statuses, waiting })
    }

    /// The table without a layer.
    pub fn without(&self, alloc: Global, layer: &Digest) -> Result<LayerTable, NoMemory>
        ensures { IfOk result (λ t. t ≡ without_value self.now layer.now) }
    {
        self.statuses.ascends();
        self.waiting.ascends();
        let waiting = self.waiting.without(alloc, layer)?;
        let statuses = self.statuses.without(alloc, layer)?;
        Ok(LayerTable { statuses, waiting })
    }

    /// The layers that wait for a worker, in ascending order. The time is linear in their number.
    pub fn queued(&self, alloc: Global) -> Result<Vec<Digest>, NoMemory>
        ensures { IfOk result (λ layers. layers.items ≡ queued self.now) }
    {
        self.statuses.ascends();
        self.waiting.ascends();
        self.waiting.keys(alloc)
    }
}

/// A copy is equal to its source and shares all of it. It takes no memory, and fails only if the number of owners of a part is
/// at its limit.
impl Share for LayerTable {
    fn share(&self) -> Result<LayerTable, NoMemory> {
        Ok(LayerTable {
            statuses: self.statuses.share()?,
            waiting: self.waiting.share()?,
        })
    }
}
