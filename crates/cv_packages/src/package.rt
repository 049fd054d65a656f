ghost use Rattle.std.specs.Prelude.{◌≡◌, map, IfOk};
ghost use Rattle.std.specs.Option.{option_map};
ghost use Rattle.cv_base.specs.declared.package.PackageKind.{PackageKind};
ghost use Rattle.cv_base.specs.declared.package.PackageKind.TheVariants as kinds;
ghost use Rattle.cv_osrel.specs.Ecosystem.{eco};
ghost use Rattle.cv_packages.specs.Texts.{Texts, apk_texts, deb_texts, npm_texts, own_texts, package_with, pypi_texts};
ghost use Rattle.cv_packages.specs.code.Texts.{texts_in};

use cv_apkdb::ApkPackage;
use cv_base::{NoMemory, Package, PackageKind, RelPath, Text};
use cv_dpkg::DebPackage;
use cv_npm::NpmPackage;
use cv_osrel::{OsName, ecosystem};
use cv_pypi::PypiPackage;
use std::alloc::Global;

/// The texts of a package of any kind. Without an architecture it is the empty text.
#[derive(Clone, Copy)]
pub(crate) struct PackageTexts<'a> {
    name: &'a Text,
    version: &'a Text,
    source: &'a Text,
    source_version: &'a Text,
    arch: Option<&'a Text>,
}

impl<'a> PackageTexts<'a> {
    /// The texts of a package that is its own source and has no architecture.
    fn own(name: &'a Text, version: &'a Text) -> PackageTexts<'a>
        ensures texts { texts_in result ≡ own_texts name.now version.now }
        ensures name { result.name.now ≡ name.now }
        ensures version { result.version.now ≡ version.now }
    {
        PackageTexts {
            name,
            version,
            source: name,
            source_version: version,
            arch: None,
        }
    }
}

/// A package as the reader of its kind gives it.
pub(crate) trait KindPackage: Sized {
    ghost kind: { PackageKind };

    ghost texts_of: { Self → Texts };

    fn kind() -> PackageKind
        ensures { result ≡ kind };

    fn texts(&self) -> PackageTexts<'_>
        ensures { texts_in result ≡ texts_of self.now };
}

impl KindPackage for DebPackage {
    ghost kind = { kinds.Deb };

    ghost texts_of = { deb_texts };

    fn kind() -> PackageKind {
        PackageKind::Deb
    }

    fn texts(&self) -> PackageTexts<'_> {
        PackageTexts {
            source: &self.source,
            source_version: &self.source_version,
            arch: Some(&self.arch),
            ..PackageTexts::own(&self.name, &self.version)
        }
    }
}

impl KindPackage for NpmPackage {
    ghost kind = { kinds.Npm };

    ghost texts_of = { npm_texts };

    fn kind() -> PackageKind {
        PackageKind::Npm
    }

    fn texts(&self) -> PackageTexts<'_> {
        PackageTexts::own(&self.name, &self.version)
    }
}

/// The source is the name as indexes know it.
impl KindPackage for PypiPackage {
    ghost kind = { kinds.Pypi };

    ghost texts_of = { pypi_texts };

    fn kind() -> PackageKind {
        PackageKind::Pypi
    }

    fn texts(&self) -> PackageTexts<'_> {
        PackageTexts {
            source: &self.source,
            ..PackageTexts::own(&self.name, &self.version)
        }
    }
}

/// The version of the source is the package's own.
impl KindPackage for ApkPackage {
    ghost kind = { kinds.Apk };

    ghost texts_of = { apk_texts };

    fn kind() -> PackageKind {
        PackageKind::Apk
    }

    fn texts(&self) -> PackageTexts<'_> {
        PackageTexts {
            arch: Some(&self.arch),
            source: &self.origin,
            ..PackageTexts::own(&self.name, &self.version)
        }
    }
}

/// The packages of a file.
pub(crate) fn packages_of<P: KindPackage>(
    alloc: Global,
    os: Option<&OsName>,
    path: &RelPath,
    found: &[P],
) -> Result<Vec<Package>, NoMemory>
    ensures { IfOk result (λ out. out.items ≡ map (λ p. package_with P.kind path.now (eco (option_map (λ name. name.now) os.entry) P.kind) (P.texts_of p)) found.now) }
{
    let kind = P::kind();
    let ecosystem = ecosystem(alloc, os, kind)?;
    let mut out = Vec::new(alloc);
    for package in found {
        out.push(package_with(alloc, kind, path, &ecosystem, package.texts())?)?;
    }
    Ok(out)
}

fn package_with(
    alloc: Global,
    kind: PackageKind,
    path: &RelPath,
    ecosystem: &Text,
    texts: PackageTexts<'_>,
) -> Result<Package, NoMemory>
    ensures { IfOk result (λ out. out ≡ package_with kind path.now ecosystem.now (texts_in texts.entry)) }
{
    let PackageTexts {
        name,
        version,
        source,
        source_version,
        arch,
    } = texts;
    let arch = match arch {
        Some(arch) => arch.clone()?,
        None => Text::of(alloc, "")?,
    };
    Ok(Package {
        kind,
        path: path.clone()?,
        name: name.clone()?,
        version: version.clone()?,
        source: source.clone()?,
        source_version: source_version.clone()?,
        arch,
        ecosystem: ecosystem.clone()?,
    })
}
