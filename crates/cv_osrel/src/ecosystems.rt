//! The table of ecosystems.
ghost use Rattle.std.specs.Prelude.{◌≡◌, IfOk, Some};
ghost use Rattle.std.specs.Option.{option_map};
ghost use Rattle.cv_osrel.specs.Ecosystem.{alpine, eco, system, versioned};

use crate::branch::branch_of;
use crate::name::OsName;
use cv_base::{NoMemory, PackageKind, Text};
use std::alloc::Global;

/// The ecosystem of a package in the form of OSV, as `Debian:12`, `Alpine:v3.18`, `npm` or `PyPI`. There is no system if the
/// root has no file os-release.
pub fn ecosystem(alloc: Global, os: Option<&OsName>, kind: PackageKind) -> Result<Text, NoMemory>
    ensures { IfOk result (λ text. text ≡ eco (option_map (λ o. o.now) os.entry) kind) }
{
    match kind {
        PackageKind::Npm => Text::of(alloc, "npm"),
        PackageKind::Pypi => Text::of(alloc, "PyPI"),
        PackageKind::Deb | PackageKind::Apk => system(alloc, os),
    }
}

fn system(alloc: Global, os: Option<&OsName>) -> Result<Text, NoMemory>
    ensures { IfOk result (λ text. text ≡ system (option_map (λ o. o.now) os.entry)) }
{
    let Some(os) = os else {
        return Text::of(alloc, "unknown");
    };
    let version = os.version.as_ref();
    if os.id.as_str() == "debian" {
        versioned(alloc, "Debian", version)
    } else if os.id.as_str() == "alpine" {
        alpine(alloc, version)
    } else {
        versioned(alloc, os.id.as_str(), version)
    }
}

/// A system with its version, if it has one.
fn versioned(alloc: Global, name: &str, version: Option<&Text>) -> Result<Text, NoMemory>
    ensures { IfOk result (λ text. text ≡ versioned name.now (option_map (λ v. v.now) version.entry)) }
{
    let Some(version) = version else {
        return Text::of(alloc, name);
    };
    let mut text = String::from_str(alloc, name)?;
    text.push(':')?;
    text.push_str(version.as_str())?;
    Text::of(alloc, text.as_str())
}

/// Alpine Linux with its branch, if its version begins with one.
fn alpine(alloc: Global, version: Option<&Text>) -> Result<Text, NoMemory>
    ensures { IfOk result (λ text. text ≡ alpine (option_map (λ v. v.now) version.entry)) }
{
    let Some(version) = version else {
        return Text::of(alloc, "Alpine");
    };
    let Some(branch) = branch_of(version.as_str().as_bytes()) else {
        return Text::of(alloc, "Alpine");
    };
    let mut text = String::from_str(alloc, "Alpine:v")?;
    text.push_str(branch.major)?;
    text.push('.')?;
    text.push_str(branch.minor)?;
    Text::of(alloc, text.as_str())
}
