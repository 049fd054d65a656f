ghost use Rattle.std.specs.Prelude.{◌≡◌, [], IfOk};
ghost use Rattle.std.specs.Option.{option_map};
ghost use Rattle.cv_core_machine.specs.Layers.{first_pending, is_indexed_as, queued};
ghost use Rattle.cv_core_machine.specs.State.{value_at};
ghost use Rattle.cv_core_registry.specs.Registrations.{IsRegular, users_of};

use crate::layer_table::LayerTable;
use crate::users::Users;
use cv_base::{Digest, NoMemory};
use cv_core_machine::{Image, Status};
use cv_tree::{Share, Shared, Tree};
use std::alloc::Global;
use std::marker::Model;

/// The images by hash, each with its layers and their seals.
pub type Images = Tree<Digest, Shared<Image>>;

/// What is registered. Contracts see the images with their layers and seals, the layers with their status, and how many images
/// there may be. Beside them it keeps for each layer the set of the images that name it.
pub struct Registry {
    pub(crate) images: Images,
    pub(crate) layers: LayerTable,
    pub(crate) users: Users,
    pub(crate) limit: u32,
}

/// Written out, so that the crates above call it, and do not prove anew how each part is dropped.
impl Drop for Registry {
    fn drop(self) {
        let Registry {
            images: _,
            layers: _,
            users: _,
            limit: _,
        } = self;
    }
}

impl Model for Registry {
    ghost use Rattle.cv_core_registry.specs.Registrations.{Registrations};
    ghost use Rattle.cv_core_registry.specs.code.Users.{IsKept};

    ghost Value = { Registrations };

    ghost view = { λ r. record { images = r.images; layers = r.layers; limit = r.limit } };

    ghost invariant = { λ r. IsKept r.images r.layers r.users r.limit };
}

impl Registry {
    /// No image. There may be as many as `limit` says. It takes no memory.
    pub fn new(limit: u32) -> Registry
        ensures { result ≡ record { images = []; layers = []; limit = limit } }
    {
        Registry {
            images: Tree::new(),
            layers: LayerTable::new(),
            users: Tree::new(),
            limit,
        }
    }

    /// What it holds is consistent. For proofs: it has no effect at run time.
    pub fn regular_law(&self)
        ensures { IsRegular self.now }
    {
        let _images = &self.images;
    }

    /// How many images there may be.
    pub fn limit(&self) -> u32
        ensures { result ≡ self.now.limit }
    {
        self.limit
    }

    /// The layers of an image with their seals, or None if it is not registered.
    pub fn image_of(&self, image: &Digest) -> Option<&Image>
        ensures { option_map (λ kept. kept.now) result ≡ value_at self.now.images image.now }
    {
        let kept = self.images.get(image)?;
        Some(kept.value())
    }

    /// The status of a layer, or None if no registered image names it and it is not claimed.
    pub fn status(&self, layer: &Digest) -> Option<Status>
        ensures { result ≡ value_at self.now.layers layer.now }
    {
        self.layers.get(layer)
    }

    /// Whether a layer is indexed.
    fn is_indexed(&self, layer: &Digest) -> bool
        ensures { result ≡ is_indexed_as (value_at self.now.layers layer.now) }
    {
        match self.status(layer) {
            Some(Status::Indexed) => true,
            _ => false,
        }
    }

    /// The first of these layers that is not indexed.
    pub fn first_pending(&self, layers: &[Digest]) -> Option<Digest>
        ensures { result ≡ first_pending self.now.layers layers.now }
    {
        for layer in layers {
            if !self.is_indexed(layer) {
                return Some(*layer);
            }
        }
        None
    }

    /// The layers that wait for a worker, in ascending order. The time is linear in their number, whatever else is registered.
    pub fn queued(&self, alloc: Global) -> Result<Vec<Digest>, NoMemory>
        ensures { IfOk result (λ layers. layers.items ≡ queued self.now.layers) }
    {
        self.layers.queued(alloc)
    }

    /// The images that name a layer, in ascending order. The set of a layer is found in time logarithmic in the number of layers,
    /// and read in time linear in the number of its images.
    pub fn users_of(&self, alloc: Global, layer: &Digest) -> Result<Vec<Digest>, NoMemory>
        ensures { IfOk result (λ images. images.items ≡ users_of self.now.images layer.now) }
    {
        match self.users.get(layer) {
            None => Ok(Vec::new(alloc)),
            Some(images) => {
                images.ascends();
                images.keys(alloc)
            }
        }
    }
}

/// A copy is equal to its source and shares all of it. It takes no memory, and fails only if the number of owners of a part is
/// at its limit.
impl Share for Registry {
    fn share(&self) -> Result<Registry, NoMemory> {
        Ok(Registry {
            images: self.images.share()?,
            layers: self.layers.share()?,
            users: self.users.share()?,
            limit: self.limit,
        })
    }
}
