ghost use Rattle.std.specs.Prelude.{◌≡◌, IfOk, OnOk};
ghost use Rattle.std.specs.Cmp.{IsTotalOrder};
ghost use Rattle.cv_base.specs.declared.«package».PackageKind.TheVariants.{Npm};
ghost use Rattle.cv_order.specs.Laws.{IsTotalPreorder};
ghost use Rattle.cv_match_range.specs.Order.{semantic_cmp, version_in};
ghost use Rattle.semver.specs.Parse.{memory_error};

use crate::version::Version;
use cv_base::{NoMemory, Text};
use semver::Error;
use std::alloc::{AllocError, Global};
use std::cmp::Ordering;
use std::marker::Model;

/// A semantic version, as npm's packages have it, seen as its text.
#[derive(Drop)]
pub struct SemanticVersion {
    source: Text,
    parsed: semver::Version,
}

impl Model for SemanticVersion {
    ghost use Rattle.std.specs.Prelude.{◌≡◌, ℕ, List, Ok};
    ghost use Rattle.semver.specs.Identifiers.{parts_of};
    ghost use Rattle.semver.specs.Parse.{version_parts};

    ghost Value = { List ℕ };

    ghost view = { λ v. v.source };

    ghost invariant = { λ v. version_parts v.source ≡ Ok (parts_of v.parsed) };
}

impl SemanticVersion {
    /// The version that the text spells, or `None` if `semver` reads none: SemVer 2.0.0, with numbers up to 64 bits.
    pub fn read(alloc: Global, text: &Text) -> Result<Option<SemanticVersion>, NoMemory>
        ensures { IfOk result (λ found. found ≡ version_in Npm text.now) }
    {
        match semver::Version::parse(alloc, text.as_str()) {
            Ok(parsed) => Ok(Some(SemanticVersion {
                source: text.clone()?,
                parsed,
            })),
            Err(error) => none_unless_memory(error),
        }
    }

    /// By precedence, SemVer 2.0.0, section 11.
    pub fn compare(&self, other: &SemanticVersion) -> Ordering
        ensures { result ≡ semantic_cmp self.now other.now }
    {
        self.parsed.cmp_precedence(&other.parsed)
    }
}

/// The three laws of the order, `laws`: any two versions compare, the order is transitive, and comparing the other way round
/// gives the reverse. `order` holds these in std's form.
pub fn semantic_order_laws()
    ensures laws { IsTotalPreorder semantic_cmp }
    ensures order { IsTotalOrder semantic_cmp }
{}

fn none_unless_memory(error: Error) -> Result<Option<SemanticVersion>, NoMemory>
    ensures none { IfOk result (λ found. found ≡ None) }
    ensures cause { OnOk result (¬ error ≡ memory_error) }
{
    if error == Error::from(AllocError) {
        Err(NoMemory)
    } else {
        Ok(None)
    }
}

impl Version for SemanticVersion {
    ghost use Rattle.cv_base.specs.declared.«package».PackageKind.TheVariants.{Npm};

    ghost kind = { Npm };

    ghost text = { λ v. v };

    fn read(alloc: Global, source: &Text) -> Result<Option<SemanticVersion>, NoMemory> {
        SemanticVersion::read(alloc, source)
    }

    fn compare(&self, other: &SemanticVersion) -> Ordering {
        self.compare(other)
    }
}
