ghost use Rattle.std.specs.Prelude.{◌≡◌, IfOk};
ghost use Rattle.cv_match.specs.Affects.{family, key_name};
ghost use Rattle.cv_match.specs.Keys.{family_key, keys_of, whole_key};

use cv_base::{NoMemory, Package, PackageKind, PackageName, Seq, Text};
use std::alloc::Global;

/// What is compared with a record: the ecosystem of a package, and the name and the version of what records name.
#[derive(Drop)]
pub(crate) struct PackageKey {
    pub ecosystem: Text,
    pub name: Text,
    pub version: Text,
}

/// The name under which records have a package.
pub fn key_name(package: &Package) -> &Text
    ensures { result.now ≡ key_name «package».now }
{
    match package.kind {
        PackageKind::Deb | PackageKind::Apk | PackageKind::Pypi => &package.source,
        PackageKind::Npm => &package.name,
    }
}

/// The part of an ecosystem before the first colon, or all of it.
pub fn family(ecosystem: &str) -> &str
    ensures { result.now ≡ family ecosystem.now }
{
    match ecosystem.split_once(':') {
        Some((front, _)) => front,
        None => ecosystem,
    }
}

/// The keys under which the records about a package are looked up: its name with its whole ecosystem, and with the part
/// before the first colon, each once. The whole one comes first. `key_laws` says what they are good for.
pub fn package_keys(alloc: Global, package: &Package) -> Result<Seq<PackageName>, NoMemory>
    ensures { IfOk result (λ keys. keys ≡ keys_of «package».now) }
{
    let mut keys = Vec::new(alloc);
    keys.push(whole_key(package)?)?;
    if family(package.ecosystem.as_str()) != package.ecosystem.as_str() {
        keys.push(family_key(alloc, package)?)?;
    }
    Ok(Seq::of(keys))
}

fn whole_key(package: &Package) -> Result<PackageName, NoMemory>
    ensures { IfOk result (λ key. key ≡ whole_key «package».now) }
{
    Ok(PackageName {
        ecosystem: package.ecosystem.clone()?,
        name: key_name(package).clone()?,
    })
}

fn family_key(alloc: Global, package: &Package) -> Result<PackageName, NoMemory>
    ensures { IfOk result (λ key. key ≡ family_key «package».now) }
{
    Ok(PackageName {
        ecosystem: Text::of(alloc, family(package.ecosystem.as_str()))?,
        name: key_name(package).clone()?,
    })
}
