ghost use Rattle.std.specs.Prelude.{◌≡◌, IfOk};

use crate::desk::{SampleDesk, SampleLayer};
use cv_base::{Digest, NoMemory};
use cv_facts::{IndexError, LayerFacts, index_layer};
use std::alloc::Global;

/// The facts of a layer.
pub fn facts_of(
    alloc: Global,
    digest: Digest,
    layers: Vec<SampleLayer>,
) -> Result<LayerFacts<SampleDesk>, NoMemory>
    ensures { IfOk result (λ facts. facts.digest ≡ digest) }
{
    let mut desk = SampleDesk::of(layers);
    match index_layer(alloc, &mut desk, digest) {
        Ok(facts) => Ok(facts),
        Err(IndexError::DeskFault | IndexError::NoMemory) => Err(NoMemory),
    }
}

/// The facts of a layer with entries that are written as a path and the text of a file. A path that ends with a slash is a folder.
pub fn facts_of_rows(
    alloc: Global,
    digest: Digest,
    rows: &[(&'static str, &str)],
) -> Result<LayerFacts<SampleDesk>, NoMemory>
    ensures { IfOk result (λ facts. facts.digest ≡ digest) }
{
    let layer = SampleLayer::of_rows(alloc, digest, rows)?;
    facts_of(alloc, digest, vec![in alloc; layer]?)
}
