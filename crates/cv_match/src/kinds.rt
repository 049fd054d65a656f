ghost use Rattle.std.specs.Prelude.{◌≡◌, IfOk};
ghost use Rattle.cv_match.specs.Prepared.{prepared_for};

use crate::prepared::{ReadyAdvisory, prepare};
use cv_base::{Advisory, NoMemory, PackageKind};
use std::alloc::{AllocError, Global};
use std::marker::Model;

/// A record that is prepared once for every kind of package. Contracts see the record. A clone shares all with its source.
#[derive(Drop)]
pub struct PreparedForKinds {
    deb: ReadyAdvisory,
    apk: ReadyAdvisory,
    npm: ReadyAdvisory,
    pypi: ReadyAdvisory,
}

impl Model for PreparedForKinds {
    ghost use Rattle.std.specs.Prelude.{◌≡◌};
    ghost use Rattle.cv_base.specs.declared.advisory.Advisory.{Advisory};
    ghost use Rattle.cv_base.specs.declared.«package».PackageKind.TheVariants.{Deb, Apk, Npm, Pypi};
    ghost use Rattle.cv_match.specs.Prepared.{prepared_for};

    ghost Value = { Advisory };

    ghost view = { λ p. p.deb.advisory };

    ghost invariant = { λ p. (p.deb.kind ≡ Deb)
        × (p.apk ≡ prepared_for Apk p.deb.advisory)
        × (p.npm ≡ prepared_for Npm p.deb.advisory)
        × (p.pypi ≡ prepared_for Pypi p.deb.advisory) };
}

impl Clone for PreparedForKinds {
    ghost is_clone = { λ x y. y ≡ x };

    fn clone(&self) -> Result<PreparedForKinds, AllocError> {
        Ok(PreparedForKinds {
            deb: self.deb.clone()?,
            apk: self.apk.clone()?,
            npm: self.npm.clone()?,
            pypi: self.pypi.clone()?,
        })
    }
}

/// Prepares a record for every kind of package.
pub fn prepare_for_kinds(alloc: Global, advisory: &Advisory) -> Result<PreparedForKinds, NoMemory>
    ensures { IfOk result (λ prepared. prepared ≡ advisory.now) }
{
    Ok(PreparedForKinds {
        deb: prepare(alloc, advisory, PackageKind::Deb)?,
        apk: prepare(alloc, advisory, PackageKind::Apk)?,
        npm: prepare(alloc, advisory, PackageKind::Npm)?,
        pypi: prepare(alloc, advisory, PackageKind::Pypi)?,
    })
}

impl PreparedForKinds {
    /// The record as it is prepared for this kind.
    pub fn for_kind(&self, kind: PackageKind) -> &ReadyAdvisory
        ensures { result.now ≡ prepared_for kind self.now }
    {
        match kind {
            PackageKind::Deb => &self.deb,
            PackageKind::Apk => &self.apk,
            PackageKind::Npm => &self.npm,
            PackageKind::Pypi => &self.pypi,
        }
    }
}
