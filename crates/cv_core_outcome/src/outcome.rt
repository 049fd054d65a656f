use crate::findings::Findings;
use cv_base::{Digest, NoMemory, Package, Seq};
use cv_overlay::ImageFault;
use cv_tree::{Share, Shared};

/// What is known of a registered image, by the facts of its layers, their stated seals and the feeds. Copies share all of it.
#[derive(Drop)]
pub enum Outcome {
    /// The first layer of the image that has no facts.
    Pending(Digest),
    /// Why the image has no packages.
    Bad(Shared<ImageFault>),
    /// The packages of the image, in the order of their files' paths, and their findings.
    Good {
        packages: Shared<Seq<Package>>,
        findings: Findings,
    },
}

/// A copy is equal to its source and shares the packages, the findings and the fault. It takes no memory, and fails only if the
/// number of owners of a part is at its limit.
impl Share for Outcome {
    fn share(&self) -> Result<Outcome, NoMemory> {
        match self {
            Outcome::Pending(layer) => Ok(Outcome::Pending(*layer)),
            Outcome::Bad(fault) => Ok(Outcome::Bad(fault.share()?)),
            Outcome::Good { packages, findings } => Ok(Outcome::Good {
                packages: packages.share()?,
                findings: findings.share()?,
            }),
        }
    }
}
