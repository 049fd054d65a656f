ghost use Rattle.std.specs.Prelude.{◌≡◌};
ghost use Rattle.cv_scan_image.specs.code.Faults.{desk_fault};

use cv_base::Digest;
use cv_desk::{Desk, DeskFault};
use cv_facts::{IndexError, LayerFacts, index_layer};
use cv_scan::LayerReader;
use std::alloc::Global;

/// Indexes layers. Facts are right by themselves.
pub struct Indexer;

impl<D: Desk> LayerReader<D> for Indexer {
    type Made = LayerFacts<D>;

    ghost digest = { λ facts. facts.digest };

    ghost right = { λ _. Unit {0} };

    #[tactic(auto, using(crate::proofs::Blamed::blamed))]
    fn read(alloc: Global, desk: &mut D, layer: &Digest) -> Result<LayerFacts<D>, DeskFault> {
        match index_layer(alloc, desk, *layer) {
            Ok(facts) => Ok(facts),
            Err(error) => Err(desk_fault(error)),
        }
    }
}

/// Why the desk did not give a layer that was not indexed.
fn desk_fault(error: IndexError) -> DeskFault
    ensures { result ≡ desk_fault error }
{
    match error {
        IndexError::DeskFault => DeskFault::Failed,
        IndexError::NoMemory => DeskFault::NoMemory,
    }
}
