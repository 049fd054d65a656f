ghost use Rattle.std.specs.Prelude.{◌≡◌, ℕ, List, map, IfOk};
ghost use Rattle.std.specs.List.{flat_map};
ghost use Rattle.cv_layer_names.specs.Names.{file_names, layer_names};

use cv_apkdb::ApkPackage;
use cv_base::{NoMemory, Text, in_order};
use cv_dpkg::DebPackage;
use cv_facts::{FileFound, Found, Shape};
use cv_npm::NpmPackage;
use cv_pypi::PypiPackage;
use std::alloc::Global;
use std::slice;

/// A package as the reader of its kind gives it.
trait NamedPackage: Sized {
    ghost name_of: { Self → List ℕ };

    /// The name under which advisories have the package.
    fn name(&self) -> &Text
        ensures { result.now ≡ name_of self.now };
}

/// By its source.
impl NamedPackage for DebPackage {
    ghost name_of = { λ p. p.source };

    fn name(&self) -> &Text {
        &self.source
    }
}

/// By its source.
impl NamedPackage for ApkPackage {
    ghost name_of = { λ p. p.origin };

    fn name(&self) -> &Text {
        &self.origin
    }
}

/// By its own name.
impl NamedPackage for NpmPackage {
    ghost name_of = { λ p. p.name };

    fn name(&self) -> &Text {
        &self.name
    }
}

/// By its name as indexes know it.
impl NamedPackage for PypiPackage {
    ghost name_of = { λ p. p.source };

    fn name(&self) -> &Text {
        &self.source
    }
}

/// The names under which advisories have the packages of a layer's own package files, in the order of texts, each once. A
/// refused file has none; neither has a layer that is missing or whose tree is not good. Each name shares its bytes with the
/// shape. The time is n log n in the packages. `names_law` says what the names are good for.
pub fn layer_names(alloc: Global, shape: &Shape) -> Result<Vec<Text>, NoMemory>
    ensures { IfOk result (λ names. names.items ≡ layer_names shape.now) }
{
    match shape {
        Shape::Reduced(reduction) => {
            let names = all_names(alloc, reduction.files.as_slice())?;
            in_order(alloc, names)
        }
        Shape::NoLayer | Shape::BadTree(_) => Ok(Vec::new(alloc)),
    }
}

/// The names of files, one after the other.
fn all_names(alloc: Global, files: &[FileFound]) -> Result<Vec<Text>, NoMemory>
    ensures { IfOk result (λ names. names.items ≡ flat_map file_names files.now) }
{
    let mut names = Vec::new(alloc);
    for file in files {
        let mut found = file_names(alloc, file)?;
        names.append(&mut found)?;
    }
    Ok(names)
}

/// The names of the packages of a file, in its order.
#[tactic(auto, using(crate::proofs::FileNames::deb_names, crate::proofs::FileNames::apk_names))]
fn file_names(alloc: Global, file: &FileFound) -> Result<Vec<Text>, NoMemory>
    ensures { IfOk result (λ names. names.items ≡ file_names file.now) }
{
    match &file.found {
        Found::Status(found) => names_of(alloc, found.as_slice()),
        Found::Installed(found) => names_of(alloc, found.as_slice()),
        Found::Npm(Some(found)) => names_of(alloc, slice::from_ref(found)),
        Found::Pypi(Some(found)) => names_of(alloc, slice::from_ref(found)),
        Found::Npm(None) | Found::Pypi(None) | Found::Os(_) => Ok(Vec::new(alloc)),
        Found::Bad(_) | Found::TooLarge => Ok(Vec::new(alloc)),
    }
}

fn names_of<P: NamedPackage>(alloc: Global, found: &[P]) -> Result<Vec<Text>, NoMemory>
    ensures { IfOk result (λ names. names.items ≡ map P.name_of found.now) }
{
    let mut names = Vec::new(alloc);
    for package in found {
        names.push(package.name().clone()?)?;
    }
    Ok(names)
}
