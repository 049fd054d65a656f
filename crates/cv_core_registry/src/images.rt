ghost use Rattle.std.specs.Prelude.{◌<◌, ◌≡◌, IfOk, None, Some, length};
ghost use Rattle.cv_core_machine.specs.State.{value_at};
ghost use Rattle.cv_core_machine.specs.Step.{drop_at, drop_image, image_of, register, register_at, same_image};
ghost use Rattle.cv_core_registry.specs.Registrations.{Leads};

use crate::registry::Registry;
use crate::table::{entered, without_unused};
use crate::users::{put_all, take_all};
use cv_base::{Digest, Manifest, NoMemory};
use cv_core_machine::Image;
use cv_core_records::{Replied, Reply};
use cv_tree::Shared;
use std::alloc::Global;

impl Registry {
    /// Registers an image: `Already` if it is registered with these layers and seals, `Conflict` with its layers and seals if with
    /// others, `TooManyImages` if there are as many images as may be. After `Registered` its layers that were not in the table wait
    /// for a worker. The time is in proportion to the number of its layers, times the logarithm of what is registered.
    pub fn register(&self, alloc: Global, manifest: &Manifest) -> Replied<Registry>
        ensures { IfOk result (Leads (λ state. register state manifest.now) self.now) }
    {
        if let Some(kept) = self.image_of(&manifest.hash) {
            return self.kept(kept, manifest);
        }
        if self.images.len() >= u64::from(self.limit) {
            return self.unchanged(Reply::TooManyImages);
        }
        self.added(alloc, manifest)
    }

    /// The reply about an image that is registered as this one.
    fn kept(&self, kept: &Image, manifest: &Manifest) -> Replied<Registry>
        ensures { IfOk result (Leads (λ state. register_at (Some kept.now) state manifest.now) self.now) }
    {
        if is_same(kept, manifest) {
            return self.unchanged(Reply::Already);
        }
        let conflict = conflict_with(kept)?;
        self.unchanged(conflict)
    }

    /// The registry with a new image.
    fn added(&self, alloc: Global, manifest: &Manifest) -> Replied<Registry>
        requires new { value_at self.now.images manifest.now.hash ≡ None }
        requires room { length self.now.images < self.now.limit }
        ensures { IfOk result (Leads (λ state. register_at None state manifest.now) self.now) }
    {
        let names = manifest.layers.as_slice();
        let layers = entered(alloc, &self.layers, names)?;
        let users = put_all(alloc, &self.users, names, manifest.hash)?;
        let image = shared(alloc, manifest)?;
        let images = self.images.set(alloc, manifest.hash, image)?;
        let registry = Registry::of(images, layers, users, self.limit);
        Ok((registry, Reply::Registered))
    }

    /// Drops an image: `NotRegistered` if it is not registered, or else `Dropped`. Its layers that no other image names go, but
    /// for those that are claimed. The time is in proportion to the number of its layers, times the logarithm of what is
    /// registered.
    pub fn drop_image(&self, alloc: Global, image: &Digest) -> Replied<Registry>
        ensures { IfOk result (Leads (λ state. drop_image state image.now) self.now) }
    {
        match self.image_of(image) {
            None => self.unchanged(Reply::NotRegistered),
            Some(kept) => self.dropped(alloc, image, kept),
        }
    }

    /// The registry without an image that is registered as this one.
    fn dropped(&self, alloc: Global, image: &Digest, kept: &Image) -> Replied<Registry>
        requires { value_at self.now.images image.now ≡ Some kept.now }
        ensures { IfOk result (Leads (λ state. drop_at (Some kept.now) state image.now) self.now) }
    {
        let names = kept.layers.as_slice();
        let users = take_all(alloc, &self.users, names, image)?;
        let layers = without_unused(alloc, &self.layers, names, &users)?;
        let images = self.images.without(alloc, image)?;
        let registry = Registry::of(images, layers, users, self.limit);
        Ok((registry, Reply::Dropped))
    }
}

/// Whether a manifest has the layers and the seals of an image.
fn is_same(kept: &Image, manifest: &Manifest) -> bool
    ensures { result ≡ same_image kept.now (image_of manifest.now) }
{
    kept.layers == manifest.layers && kept.seals == manifest.seals
}

/// What is kept of the image of a manifest. It may have several owners.
fn shared(alloc: Global, manifest: &Manifest) -> Result<Shared<Image>, NoMemory>
    ensures { IfOk result (λ image. image ≡ image_of manifest.now) }
{
    let image = Image {
        layers: manifest.layers.clone()?,
        seals: manifest.seals.clone()?,
    };
    Shared::of(alloc, image)
}

/// The reply that an image is registered with other layers or other seals.
fn conflict_with(kept: &Image) -> Result<Reply, NoMemory>
    ensures { IfOk result (λ reply. reply ≡ Reply.Conflict kept.now.layers kept.now.seals) }
{
    Ok(Reply::Conflict {
        kept: kept.layers.clone()?,
        kept_seals: kept.seals.clone()?,
    })
}
