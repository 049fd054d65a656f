//! One component.
ghost use Rattle.std.specs.Prelude.{◌≡◌, IfOk};
ghost use Rattle.std.specs.Option.{option_map};
ghost use Rattle.cv_sbom.specs.Component.{kind_of, package_in, package_with, texts_of};
ghost use Rattle.cv_sbom.specs.code.Texts.{texts_in};

use crate::member::{items_at, property, text_at};
use cv_base::{NoMemory, Package, PackageKind, PathError, RelPath};
use cv_osv::{Node, Texts};
use std::alloc::Global;

/// The texts of a component that has all that a package needs.
#[derive(Clone, Copy)]
pub(crate) struct ComponentTexts<'v> {
    name: &'v str,
    version: &'v str,
    arch: &'v str,
    ecosystem: &'v str,
    kind: &'v str,
    path: &'v str,
    source: &'v str,
    source_version: &'v str,
}

/// The package that a component is, if it is one of this project's profile.
#[tactic(auto, unfolding(crate::specs::Component::package_in))]
pub(crate) fn package_in<V: Node<T>, T: Texts>(
    alloc: Global,
    texts: &mut T,
    component: &V,
) -> Result<Option<Package>, NoMemory>
    ensures { IfOk result (λ found. found ≡ package_in (V.data_of component.now)) }
{
    let Some(found) = texts_of(component) else {
        return Ok(None);
    };
    let Some(kind) = kind_of(found.kind) else {
        return Ok(None);
    };
    match RelPath::read(alloc, found.path) {
        Ok(path) => Ok(Some(package_with(alloc, texts, kind, path, found)?)),
        Err(PathError::NoMemory) => Err(NoMemory),
        Err(PathError::Empty | PathError::TooLong | PathError::BadComponent) => Ok(None),
    }
}

/// The texts of a component, if they are all present.
#[tactic(auto, unfolding(crate::specs::Component::texts_of))]
fn texts_of<'v, V: Node<T>, T: Texts>(component: &'v V) -> Option<ComponentTexts<'v>>
    ensures { option_map texts_in result ≡ texts_of (V.data_of component.now) }
{
    let name = text_at(component, "name")?;
    let version = text_at(component, "version")?;
    let properties = items_at(component, "properties")?;
    Some(ComponentTexts {
        name,
        version,
        arch: property(properties, "cvwatch:arch")?,
        ecosystem: property(properties, "cvwatch:ecosystem")?,
        kind: property(properties, "cvwatch:kind")?,
        path: property(properties, "cvwatch:path")?,
        source: property(properties, "cvwatch:source")?,
        source_version: property(properties, "cvwatch:source_version")?,
    })
}

/// The kind with this name.
fn kind_of(name: &str) -> Option<PackageKind>
    ensures { result ≡ kind_of name.now }
{
    match name {
        "deb" => Some(PackageKind::Deb),
        "apk" => Some(PackageKind::Apk),
        "npm" => Some(PackageKind::Npm),
        "pypi" => Some(PackageKind::Pypi),
        _ => None,
    }
}

/// The package of a kind, at a path, with these texts.
fn package_with<T: Texts>(
    alloc: Global,
    texts: &mut T,
    kind: PackageKind,
    path: RelPath,
    found: ComponentTexts<'_>,
) -> Result<Package, NoMemory>
    ensures { IfOk result (λ made. made ≡ package_with kind path (texts_in found.entry)) }
{
    Ok(Package {
        kind,
        path,
        name: texts.text(alloc, found.name)?,
        version: texts.text(alloc, found.version)?,
        source: texts.text(alloc, found.source)?,
        source_version: texts.text(alloc, found.source_version)?,
        arch: texts.text(alloc, found.arch)?,
        ecosystem: texts.text(alloc, found.ecosystem)?,
    })
}
