ghost use Rattle.std.specs.Prelude.{◌≡◌, IfOk, Some, false, true};
ghost use Rattle.cv_core_machine.specs.Layers.{is_claimed_by, is_named};
ghost use Rattle.cv_core_machine.specs.State.{value_at, with_value, without_value};
ghost use Rattle.cv_core_machine.specs.Step.{claim, finish};
ghost use Rattle.cv_core_registry.specs.Registrations.{Leads};

use crate::registry::Registry;
use crate::users::is_used;
use cv_base::Digest;
use cv_core_machine::Status;
use cv_core_records::{Replied, Reply};
use std::alloc::Global;

impl Registry {
    /// Claims a layer for a worker: `Claimed` if the layer waits for one, `Taken` if it is claimed or indexed, `Unwanted` if it
    /// is not in the table.
    pub fn claim(&self, alloc: Global, layer: &Digest, worker: u32) -> Replied<Registry>
        ensures { IfOk result (Leads (λ state. claim state layer.now worker) self.now) }
    {
        match self.status(layer) {
            None => self.unchanged(Reply::Unwanted),
            Some(Status::Queued) => self.claimed(alloc, layer, worker),
            Some(Status::Claimed(_) | Status::Indexed) => self.unchanged(Reply::Taken),
        }
    }

    /// The registry with a layer that waits as a worker's.
    fn claimed(&self, alloc: Global, layer: &Digest, worker: u32) -> Replied<Registry>
        requires { value_at self.now.layers layer.now ≡ Some Status.Queued }
        ensures { IfOk result (Leads (λ state. claim state layer.now worker) self.now) }
    {
        self.regular_law();
        let registry = self.with_status(alloc, layer, Status::Claimed(worker))?;
        Ok((registry, Reply::Claimed))
    }

    /// A worker has indexed a layer: `Entered`, and the layer is indexed; `NotClaimed` if the layer is not the worker's;
    /// `Discarded`, and the layer goes, if no registered image names it.
    pub fn index(&self, alloc: Global, layer: &Digest, worker: u32) -> Replied<Registry>
        ensures { IfOk result (Leads (λ state. finish state layer.now worker Status.Indexed Reply.Entered) self.now) }
    {
        self.finish(alloc, layer, worker, Status::Indexed, Reply::Entered)
    }

    /// A worker gives a layer back, after a fault or because memory ran out: `Requeued`, and the layer waits for a worker again;
    /// `NotClaimed` and `Discarded` as for `index`.
    pub fn requeue(&self, alloc: Global, layer: &Digest, worker: u32) -> Replied<Registry>
        ensures { IfOk result (Leads (λ state. finish state layer.now worker Status.Queued Reply.Requeued) self.now) }
    {
        self.finish(alloc, layer, worker, Status::Queued, Reply::Requeued)
    }

    /// A worker ends its work at a layer, which has the next status with this answer.
    fn finish(
        &self,
        alloc: Global,
        layer: &Digest,
        worker: u32,
        next: Status,
        answer: Reply,
    ) -> Replied<Registry>
        ensures { IfOk result (Leads (λ state. finish state layer.now worker next answer) self.now) }
    {
        if !self.is_claimed_by(layer, worker) {
            return self.unchanged(Reply::NotClaimed);
        }
        if !self.is_named(layer) {
            return self.discarded(alloc, layer);
        }
        self.finished(alloc, layer, next, answer)
    }

    /// Whether a layer is claimed by a worker.
    fn is_claimed_by(&self, layer: &Digest, worker: u32) -> bool
        ensures { result ≡ is_claimed_by worker (value_at self.now.layers layer.now) }
    {
        match self.status(layer) {
            Some(Status::Claimed(other)) => other == worker,
            _ => false,
        }
    }

    /// Whether a registered image names a layer.
    fn is_named(&self, layer: &Digest) -> bool
        ensures { result ≡ is_named self.now.images layer.now }
    {
        is_used(&self.users, layer)
    }

    /// The registry with the next status of a layer that an image names.
    fn finished(
        &self,
        alloc: Global,
        layer: &Digest,
        next: Status,
        answer: Reply,
    ) -> Replied<Registry>
        requires { is_named self.now.images layer.now ≡ true }
        ensures { IfOk result (λ after. after ≡ (record self.now { layers = with_value self.now.layers layer.now next }, answer)) }
    {
        self.regular_law();
        Ok((self.with_status(alloc, layer, next)?, answer))
    }

    /// The registry without a layer that no image names.
    fn discarded(&self, alloc: Global, layer: &Digest) -> Replied<Registry>
        requires { is_named self.now.images layer.now ≡ false }
        ensures { IfOk result (λ after. after ≡ (record self.now { layers = without_value self.now.layers layer.now }, Reply.Discarded)) }
    {
        self.regular_law();
        Ok((self.without_layer(alloc, layer)?, Reply::Discarded))
    }
}
