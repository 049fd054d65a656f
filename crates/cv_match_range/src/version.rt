ghost use Rattle.std.specs.Prelude.{◌≡◌, IfOk, option_map};
ghost use Rattle.std.specs.Ordering.{on};
ghost use Rattle.cv_match_range.specs.Order.{version_cmp_of, version_in};

use cv_base::{NoMemory, Text};
use std::alloc::Global;
use std::cmp::Ordering;
use std::marker::{Model, PhantomData};

/// A version of one kind of package, which is read from its text once.
pub trait Version: Sized + Drop {
    ghost use Rattle.std.specs.Prelude.{ℕ, List};
    ghost use Rattle.cv_base.specs.declared.«package».PackageKind.{PackageKind};

    /// The kind of package that has such versions.
    ghost kind: { PackageKind };

    /// The text that was read.
    ghost text: { Self → List ℕ };

    /// The version that the text spells, or `None` if it is not a valid version.
    fn read(alloc: Global, source: &Text) -> Result<Option<Self>, NoMemory>
        ensures { IfOk result (λ found. option_map text found ≡ version_in kind source.now) };

    fn compare(&self, other: &Self) -> Ordering
        ensures { result ≡ on text (version_cmp_of kind) self.now other.now };
}

/// Which texts are versions of one kind of package, and how these compare.
pub trait VersionRule {
    ghost use Rattle.cv_base.specs.declared.«package».PackageKind.{PackageKind};
    ghost use Rattle.cv_match_range.specs.Order.{is_version_of};

    /// The kind of package that has such versions.
    ghost kind: { PackageKind };

    /// Whether the text is such a version.
    fn is_version(text: &[u8]) -> bool
        ensures { result ≡ is_version_of kind text.now };

    /// How two such versions compare.
    fn compare(a: &[u8], b: &[u8]) -> Ordering
        ensures { result ≡ version_cmp_of kind a.now b.now };
}

/// Versions in Debian's order.
pub struct DebRule;

impl VersionRule for DebRule {
    ghost use Rattle.cv_base.specs.declared.«package».PackageKind.TheVariants.{Deb};

    ghost kind = { Deb };

    fn is_version(text: &[u8]) -> bool {
        cv_debver::is_version(text)
    }

    fn compare(a: &[u8], b: &[u8]) -> Ordering {
        cv_debver::compare(a, b)
    }
}

/// Versions in the order of this project's profile of apk.
pub struct ApkRule;

impl VersionRule for ApkRule {
    ghost use Rattle.cv_base.specs.declared.«package».PackageKind.TheVariants.{Apk};

    ghost kind = { Apk };

    fn is_version(text: &[u8]) -> bool {
        cv_apkver::is_version(text)
    }

    fn compare(a: &[u8], b: &[u8]) -> Ordering {
        cv_apkver::compare(a, b)
    }
}

/// Versions in the order of PEP 440.
pub struct PypiRule;

impl VersionRule for PypiRule {
    ghost use Rattle.cv_base.specs.declared.«package».PackageKind.TheVariants.{Pypi};

    ghost kind = { Pypi };

    fn is_version(text: &[u8]) -> bool {
        cv_pep440::is_version(text)
    }

    fn compare(a: &[u8], b: &[u8]) -> Ordering {
        cv_pep440::compare(a, b)
    }
}

/// A version that is compared as a text, by the rule of its kind of package. It is seen as its text.
#[derive(Drop)]
pub struct TextVersion<R: VersionRule> {
    source: Text,
    rule: PhantomData<R>,
}

/// A version of a Debian package.
pub type DebVersion = TextVersion<DebRule>;

/// A version of an Alpine package.
pub type ApkVersion = TextVersion<ApkRule>;

/// A version of a Python package.
pub type PypiVersion = TextVersion<PypiRule>;

impl<R: VersionRule> Model for TextVersion<R> {
    ghost use Rattle.std.specs.Prelude.{ℕ, List};

    ghost Value = { List ℕ };

    ghost view = { λ v. v.source };
}

impl<R: VersionRule> Version for TextVersion<R> {
    ghost kind = { R.kind };

    ghost text = { λ v. v };

    fn read(_alloc: Global, source: &Text) -> Result<Option<TextVersion<R>>, NoMemory> {
        if R::is_version(source.as_str().as_bytes()) {
            Ok(Some(TextVersion {
                source: source.clone()?,
                rule: PhantomData,
            }))
        } else {
            Ok(None)
        }
    }

    fn compare(&self, other: &TextVersion<R>) -> Ordering {
        R::compare(
            self.source.as_str().as_bytes(),
            other.source.as_str().as_bytes(),
        )
    }
}
