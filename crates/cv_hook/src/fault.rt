ghost use Rattle.std.specs.Prelude.{◌≡◌};
ghost use Rattle.cv_hook.specs.declared.fault.HookFault.TheVariants as fault;

use cv_base::NoMemory;
use thiserror::Error;

/// Why a hook did not answer an offer.
#[derive(Clone, Copy, Debug, PartialEq, Eq, Error)]
pub enum HookFault {
    #[error("the hook failed")]
    Failed,
    #[error("out of memory")]
    NoMemory,
}

impl From<NoMemory> for HookFault {
    ghost from_gives = { λ _ f. f ≡ fault.NoMemory };

    fn from(_error: NoMemory) -> HookFault {
        HookFault::NoMemory
    }
}
