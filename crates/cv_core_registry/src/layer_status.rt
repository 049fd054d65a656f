ghost use Rattle.std.specs.Prelude.{◌≡◌};
ghost use Rattle.cv_core_machine.specs.Layers.{is_queued_as};

use cv_base::NoMemory;
use cv_core_machine::Status;
use cv_tree::Share;
use std::marker::Model;

/// The status of a layer as a tree holds it. Contracts see the status.
#[derive(Clone, Copy)]
pub struct LayerStatus {
    pub status: Status,
}

impl Model for LayerStatus {
    ghost use Rattle.cv_core_machine.specs.declared.status.Status.{Status};

    ghost Value = { Status };

    ghost view = { λ s. s.status };

    ghost inverse = { λ s. record { status = s } };
}

impl LayerStatus {
    /// The layer_status of a status.
    pub fn of(status: Status) -> LayerStatus
        ensures { result ≡ status }
    {
        LayerStatus { status }
    }

    /// Whether the layer waits for a worker.
    pub fn is_queued(self) -> bool
        ensures { result ≡ is_queued_as self }
    {
        match self.status {
            Status::Queued => true,
            Status::Claimed(_) | Status::Indexed => false,
        }
    }
}

/// A copy is equal to its source. It takes no memory and does not fail.
impl Share for LayerStatus {
    fn share(&self) -> Result<LayerStatus, NoMemory> {
        Ok(*self)
    }
}
