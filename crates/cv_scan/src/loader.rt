ghost use Rattle.std.specs.Prelude.{◌≡◌};
ghost use Rattle.std.specs.Option.{option_map};
ghost use Rattle.cv_scan.specs.code.Layers.{tree_in};

use crate::reader::LayerReader;
use cv_base::{Digest, Tree};
use cv_desk::{Desk, DeskFault, load};
use std::alloc::Global;

/// A layer as it was loaded. It has no tree if the desk has no such layer.
#[derive(Drop)]
pub struct LoadedLayer {
    pub layer: Digest,
    pub tree: Option<Tree>,
}

/// Loads whole layers.
pub struct Loader;

impl<D: Desk> LayerReader<D> for Loader {
    ghost use Rattle.cv_scan.specs.code.Layers.{IsLoaded};

    type Made = LoadedLayer;

    ghost digest = { λ loaded. loaded.layer };

    ghost right = { IsLoaded D.tree };

    fn read(alloc: Global, desk: &mut D, layer: &Digest) -> Result<LoadedLayer, DeskFault> {
        let tree = load(alloc, desk, layer)?;
        Ok(LoadedLayer {
            layer: *layer,
            tree,
        })
    }
}

/// The tree of a layer among those that were loaded. They are at most 128.
pub fn tree_of<'a>(loaded: &'a [LoadedLayer], layer: &Digest) -> Option<&'a Tree>
    ensures { option_map (λ tree. tree.now.entries) result ≡ tree_in loaded.now layer.now }
{
    for one in loaded {
        if one.layer == *layer {
            return one.tree.as_ref();
        }
    }
    None
}
