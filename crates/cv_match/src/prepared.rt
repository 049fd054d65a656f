ghost use Rattle.std.specs.Prelude.{◌≡◌, IfOk, map};
ghost use Rattle.cv_match.specs.Affects.{matched_version};
ghost use Rattle.cv_match.specs.Answer.{Answers};
ghost use Rattle.cv_match.specs.Prepared.{prepared_for};
ghost use Rattle.cv_match.specs.code.Hit.{hit_of, key_of};
ghost use Rattle.cv_match.specs.code.Kinds.{entries_kind, entries_text, version_kind, version_text};
ghost use Rattle.cv_match_range.specs.Order.{version_in};
ghost use Rattle.cv_match.specs.code.Entries.{prepared_entry};

use crate::answer::Hit;
use crate::entry::{PreparedEntries, PreparedVersion};
use crate::key::{PackageKey, key_name};
use crate::matching::hit;
use crate::reading::prepare_entries;
use cv_base::{Advisory, Affected, NoMemory, Package, PackageKind, Text};
use cv_match_range::{ApkVersion, DebVersion, PypiVersion, SemanticVersion, Version};
use std::alloc::{AllocError, Global};
use std::marker::Model;
use std::snapshot::Snapshot;
use std::sync::Arc;

/// A record with its versions read for one kind of package. Contracts see the kind and the record. A clone shares all with
/// its source: it takes no memory, and fails only at the last value of the count of owners.
#[derive(Drop)]
pub struct ReadyAdvisory {
    record: Arc<PreparedRecord>,
}

impl Model for ReadyAdvisory {
    ghost use Rattle.std.specs.Arc.{arc_value};
    ghost use Rattle.cv_match.specs.Prepared.{Prepared};

    ghost Value = { Prepared };

    ghost view = { λ a. arc_value a.record };
}

impl Clone for ReadyAdvisory {
    ghost is_clone = { λ x y. y ≡ x };

    fn clone(&self) -> Result<ReadyAdvisory, AllocError> {
        Ok(ReadyAdvisory {
            record: self.record.clone()?,
        })
    }
}

/// What the clones of a prepared record share.
#[derive(Drop)]
pub struct PreparedRecord {
    withdrawn: bool,
    entries: PreparedEntries,
    source: Snapshot<Advisory>,
}

impl Model for PreparedRecord {
    ghost use Rattle.std.specs.Prelude.{◌≡◌, map};
    ghost use Rattle.cv_match.specs.Prepared.{Prepared, prepared_for};
    ghost use Rattle.cv_match.specs.code.Kinds.{entries_kind, entries_text};
    ghost use Rattle.cv_match.specs.code.Entries.{prepared_entry};

    ghost Value = { Prepared };

    ghost view = { λ a. prepared_for (entries_kind a.entries) a.source.value };

    ghost invariant = { λ a. (a.withdrawn ≡ a.source.value.withdrawn)
        × (entries_text a.entries ≡ map (prepared_entry (entries_kind a.entries)) a.source.value.affected) };
}

/// A package with its version read. Contracts see the package.
#[derive(Drop)]
pub struct ReadyPackage {
    key: PackageKey,
    version: PreparedVersion,
    source: Snapshot<Package>,
}

impl Model for ReadyPackage {
    ghost use Rattle.std.specs.Prelude.{◌≡◌};
    ghost use Rattle.cv_base.specs.declared.«package».Package.{Package};
    ghost use Rattle.cv_match.specs.Affects.{matched_version};
    ghost use Rattle.cv_match.specs.code.Hit.{key_of};
    ghost use Rattle.cv_match.specs.code.Kinds.{version_kind, version_text};
    ghost use Rattle.cv_match_range.specs.Order.{version_in};

    ghost Value = { Package };

    ghost view = { λ p. p.source.value };

    ghost invariant = { λ p. (version_kind p.version ≡ p.source.value.kind)
        × (p.key ≡ key_of p.source.value)
        × (version_text p.version ≡ version_in p.source.value.kind (matched_version p.source.value)) };
}

/// Reads the versions of a record once, for one kind of package. All entries and versions of the record are read, those of
/// other packages too.
pub fn prepare(
    alloc: Global,
    advisory: &Advisory,
    kind: PackageKind,
) -> Result<ReadyAdvisory, NoMemory>
    ensures { IfOk result (λ prepared. prepared ≡ prepared_for kind advisory.now) }
{
    let record = prepare_record(alloc, advisory, kind)?;
    Ok(ReadyAdvisory {
        record: Arc::new(alloc, record)?,
    })
}

fn prepare_record(
    alloc: Global,
    advisory: &Advisory,
    kind: PackageKind,
) -> Result<PreparedRecord, NoMemory>
    ensures { IfOk result (λ prepared. prepared ≡ prepared_for kind advisory.now) }
{
    Ok(PreparedRecord {
        withdrawn: advisory.withdrawn,
        entries: entries_for(alloc, advisory.affected.as_slice(), kind)?,
        source: Snapshot::of(advisory),
    })
}

fn entries_for(
    alloc: Global,
    entries: &[Affected],
    kind: PackageKind,
) -> Result<PreparedEntries, NoMemory>
    ensures kind { IfOk result (λ prepared. entries_kind prepared ≡ kind) }
    ensures entries { IfOk result (λ prepared. entries_text prepared ≡ map (prepared_entry kind) entries.now) }
{
    match kind {
        PackageKind::Deb => Ok(PreparedEntries::Deb(prepare_entries(alloc, kind, entries)?)),
        PackageKind::Apk => Ok(PreparedEntries::Apk(prepare_entries(alloc, kind, entries)?)),
        PackageKind::Npm => Ok(PreparedEntries::Npm(prepare_entries(alloc, kind, entries)?)),
        PackageKind::Pypi => Ok(PreparedEntries::Pypi(prepare_entries(alloc, kind, entries)?)),
    }
}

/// Reads the version of a package once.
pub fn prepare_package(alloc: Global, package: &Package) -> Result<ReadyPackage, NoMemory>
    ensures { IfOk result (λ prepared. prepared ≡ «package».now) }
{
    let key = key_of(package)?;
    Ok(ReadyPackage {
        version: read_version(alloc, &key.version, package.kind)?,
        key,
        source: Snapshot::of(package),
    })
}

fn key_of(package: &Package) -> Result<PackageKey, NoMemory>
    ensures { IfOk result (λ key. key ≡ key_of «package».now) }
{
    let version = match package.kind {
        PackageKind::Deb | PackageKind::Apk | PackageKind::Pypi => &package.source_version,
        PackageKind::Npm => &package.version,
    };
    Ok(PackageKey {
        ecosystem: package.ecosystem.clone()?,
        name: key_name(package).clone()?,
        version: version.clone()?,
    })
}

fn read_version(alloc: Global, text: &Text, kind: PackageKind) -> Result<PreparedVersion, NoMemory>
    ensures kind { IfOk result (λ version. version_kind version ≡ kind) }
    ensures version { IfOk result (λ version. version_text version ≡ version_in kind text.now) }
{
    match kind {
        PackageKind::Deb => Ok(PreparedVersion::Deb(DebVersion::read(alloc, text)?)),
        PackageKind::Apk => Ok(PreparedVersion::Apk(ApkVersion::read(alloc, text)?)),
        PackageKind::Npm => Ok(PreparedVersion::Npm(SemanticVersion::read(alloc, text)?)),
        PackageKind::Pypi => Ok(PreparedVersion::Pypi(PypiVersion::read(alloc, text)?)),
    }
}

impl ReadyAdvisory {
    pub(crate) fn hit(&self, package: &ReadyPackage) -> Hit
        requires { self.now.kind ≡ «package».now.kind }
        ensures { Answers self.now.advisory «package».now result }
    {
        self.record.hit(package)
    }
}

impl PreparedRecord {
    fn hit(&self, package: &ReadyPackage) -> Hit
        requires { self.now.kind ≡ «package».now.kind }
        ensures { Answers self.now.advisory «package».now result }
    {
        if self.withdrawn {
            Hit::No
        } else {
            entries_hit(&self.entries, &package.key, &package.version)
        }
    }
}

fn entries_hit(entries: &PreparedEntries, key: &PackageKey, version: &PreparedVersion) -> Hit
    requires { entries_kind entries.now ≡ version_kind version.now }
    ensures { result ≡ hit_of (entries_kind entries.now) key.now (version_text version.now) (entries_text entries.now) }
{
    match entries {
        PreparedEntries::Deb(entries) => match version {
            PreparedVersion::Deb(version) => hit(entries.as_slice(), key, version),
            _ => unreachable!(),
        },
        PreparedEntries::Apk(entries) => match version {
            PreparedVersion::Apk(version) => hit(entries.as_slice(), key, version),
            _ => unreachable!(),
        },
        PreparedEntries::Npm(entries) => match version {
            PreparedVersion::Npm(version) => hit(entries.as_slice(), key, version),
            _ => unreachable!(),
        },
        PreparedEntries::Pypi(entries) => match version {
            PreparedVersion::Pypi(version) => hit(entries.as_slice(), key, version),
            _ => unreachable!(),
        },
    }
}
