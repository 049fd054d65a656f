ghost use Rattle.std.specs.Prelude.{◌≡◌, IfOk};
ghost use Rattle.cv_core_machine.specs.State.{with_value, without_value};
ghost use Rattle.cv_core_registry.specs.Registrations.{IsRegular};
ghost use Rattle.cv_core_registry.specs.code.Users.{IsKept};

use crate::layer_table::LayerTable;
use crate::registry::{Images, Registry};
use crate::users::Users;
use cv_base::{Digest, NoMemory};
use cv_core_machine::Status;
use cv_core_records::{Replied, Reply};
use cv_tree::Share;
use std::alloc::Global;

impl Registry {
    /// A registry of these parts.
    pub(crate) fn of(images: Images, layers: LayerTable, users: Users, limit: u32) -> Registry
        requires { IsKept images layers users limit }
        ensures { result ≡ record { images = images; layers = layers; limit = limit } }
    {
        Registry {
            images,
            layers,
            users,
            limit,
        }
    }

    /// The registry as it is, with a reply.
    pub(crate) fn unchanged(&self, reply: Reply) -> Replied<Registry>
        ensures { IfOk result (λ after. after ≡ (self.now, reply)) }
    {
        Ok((self.share()?, reply))
    }

    /// The registry with another status of a layer.
    pub(crate) fn with_status(
        &self,
        alloc: Global,
        layer: &Digest,
        status: Status,
    ) -> Result<Registry, NoMemory>
        requires { IsRegular (record self.now { layers = with_value self.now.layers layer.now status }) }
        ensures { IfOk result (λ after. after ≡ record self.now { layers = with_value self.now.layers layer.now status }) }
    {
        let images = self.images.share()?;
        let users = self.users.share()?;
        let layers = self.layers.set(alloc, *layer, status)?;
        Ok(Registry::of(images, layers, users, self.limit))
    }

    /// The registry without a layer.
    pub(crate) fn without_layer(&self, alloc: Global, layer: &Digest) -> Result<Registry, NoMemory>
        requires { IsRegular (record self.now { layers = without_value self.now.layers layer.now }) }
        ensures { IfOk result (λ after. after ≡ record self.now { layers = without_value self.now.layers layer.now }) }
    {
        let images = self.images.share()?;
        let users = self.users.share()?;
        let layers = self.layers.without(alloc, layer)?;
        Ok(Registry::of(images, layers, users, self.limit))
    }
}
