ghost use Rattle.std.specs.Prelude.{◌≡◌, map, IfOk};
ghost use Rattle.std.specs.List.{list_any};
ghost use Rattle.std.specs.Option.{option_map};
ghost use Rattle.cv_base.specs.Answer.{MatchesUnlessOutOfMemory};
ghost use Rattle.cv_packages.specs.Faults.{refused_file};
ghost use Rattle.cv_packages.specs.Packages.{all_packages, assembled, counted, is_etc_os, is_usr_os, packages_in, system, system_in};

use crate::error::{FileFault, PackagesError};
use crate::found::{FileFound, Found};
use crate::package::packages_of;
use cv_base::{FileBad, NoMemory, Package, Place, RelPath, Seq, place};
use cv_osrel::OsName;
use std::alloc::Global;
use std::slice;

/// The packages of the package files of a root, which stand in the order of their paths, or the first file that is refused.
/// The first os-release names the system, and `usr/lib/os-release` does not count beside `etc/os-release`.
pub fn assemble(alloc: Global, files: &[&FileFound]) -> Result<Seq<Package>, PackagesError>
    ensures { MatchesUnlessOutOfMemory refused_file (λ packages. packages) result (assembled (map (λ file. file.now) files.now)) }
{
    let counted = counted(alloc, files)?;
    all_packages(alloc, system(&counted), &counted)
}

/// The files that count.
fn counted<'a>(alloc: Global, files: &[&'a FileFound]) -> Result<Vec<&'a FileFound>, NoMemory>
    ensures { IfOk result (λ out. map (λ file. file.now) out.items ≡ counted (map (λ file. file.now) files.now)) }
{
    let etc = has_etc_os(files);
    let mut out = Vec::new(alloc);
    for file in files {
        if etc && is_usr_os(file) {
            continue;
        }
        out.push(*file)?;
    }
    Ok(out)
}

fn has_etc_os(files: &[&FileFound]) -> bool
    ensures { result ≡ list_any is_etc_os (map (λ file. file.now) files.now) }
{
    for file in files {
        if is_etc_os(file) {
            return true;
        }
    }
    false
}

fn is_etc_os(file: &FileFound) -> bool
    ensures { result ≡ is_etc_os file.now }
{
    matches!(place(&file.path), Some(Place::Os))
}

fn is_usr_os(file: &FileFound) -> bool
    ensures { result ≡ is_usr_os file.now }
{
    matches!(place(&file.path), Some(Place::UsrOs))
}

/// The system that the first os-release names.
fn system<'a>(files: &[&'a FileFound]) -> Option<&'a OsName>
    ensures { option_map (λ name. name.now) result ≡ system (map (λ file. file.now) files.now) }
{
    for file in files {
        if let Some(name) = system_in(&file.found) {
            return Some(name);
        }
    }
    None
}

fn system_in(found: &Found) -> Option<&OsName>
    ensures { option_map (λ name. name.now) result ≡ system_in found.now }
{
    match found {
        Found::Os(name) => Some(name),
        _ => None,
    }
}

/// The packages of files, one after the other.
#[tactic(auto, using(crate::proofs::FileLemmas::files_more, crate::proofs::FileLemmas::files_bad))]
fn all_packages(
    alloc: Global,
    os: Option<&OsName>,
    files: &[&FileFound],
) -> Result<Seq<Package>, PackagesError>
    ensures { MatchesUnlessOutOfMemory refused_file (λ packages. packages) result (all_packages (option_map (λ name. name.now) os.entry) (map (λ file. file.now) files.now)) }
{
    let mut out = Vec::new(alloc);
    for file in files {
        match packages_in(alloc, os, &file.path, &file.found) {
            Ok(mut found) => out.append(&mut found)?,
            Err(error) => return Err(error),
        }
    }
    Ok(Seq::of(out))
}

/// The packages of a file, or its refusal.
fn packages_in(
    alloc: Global,
    os: Option<&OsName>,
    path: &RelPath,
    found: &Found,
) -> Result<Vec<Package>, PackagesError>
    ensures { MatchesUnlessOutOfMemory refused_file (λ packages. packages.items) result (packages_in (option_map (λ name. name.now) os.entry) path.now found.now) }
{
    match found {
        Found::Status(found) => Ok(packages_of(alloc, os, path, found.as_slice())?),
        Found::Installed(found) => Ok(packages_of(alloc, os, path, found.as_slice())?),
        Found::Npm(Some(found)) => Ok(packages_of(alloc, os, path, slice::from_ref(found))?),
        Found::Pypi(Some(found)) => Ok(packages_of(alloc, os, path, slice::from_ref(found))?),
        Found::Npm(None) | Found::Pypi(None) | Found::Os(_) => Ok(Vec::new(alloc)),
        Found::Bad(bad) => Err(PackagesError::Refused(FileFault::BadFile {
            path: path.clone()?,
            line: bad.line,
            what: bad.what,
        })),
        Found::TooLarge => Err(PackagesError::Refused(FileFault::TooLarge {
            path: path.clone()?,
        })),
    }
}
