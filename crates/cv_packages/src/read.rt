ghost use Rattle.std.specs.Prelude.{◌≡◌, IfOk};
ghost use Rattle.cv_dpkg.specs.Status.{status};
ghost use Rattle.cv_apkdb.specs.Installed.{installed};
ghost use Rattle.cv_packages.specs.Found.{found_at, found_in, installed_found, status_found};

use crate::found::Found;
use cv_apkdb::read_installed;
use cv_base::{Content, NoMemory, PACKAGE_FILE_LIMIT, Place, ReadBad};
use cv_dpkg::{StatusRule, read_status};
use cv_npm::read_package;
use cv_osrel::read_os;
use cv_pypi::read_metadata;
use std::alloc::Global;

/// What a file at a place of package files has. A file whose bytes were not read counts as one above the limit.
pub fn read_file(alloc: Global, place: Place, content: &Content) -> Result<Found, NoMemory>
    ensures { IfOk result (λ found. found ≡ found_in place content.now) }
{
    match content {
        Content::Bytes(bytes) => {
            if bytes.as_slice().len() > PACKAGE_FILE_LIMIT as usize {
                Ok(Found::TooLarge)
            } else {
                read_bytes(alloc, place, bytes.as_slice())
            }
        }
        Content::TooLarge | Content::Unread => Ok(Found::TooLarge),
    }
}

/// What a file with these bytes has.
fn read_bytes(alloc: Global, place: Place, bytes: &[u8]) -> Result<Found, NoMemory>
    ensures { IfOk result (λ found. found ≡ found_at place bytes.now) }
{
    match place {
        Place::Status => read_deb(alloc, bytes, StatusRule::Needed),
        Place::StatusFolder => read_deb(alloc, bytes, StatusRule::Optional),
        Place::Installed | Place::UsrInstalled => read_apk(alloc, bytes),
        Place::Os | Place::UsrOs => Ok(Found::Os(read_os(alloc, bytes)?)),
        Place::Npm => Ok(Found::Npm(read_package(alloc, bytes)?)),
        Place::Pypi => Ok(Found::Pypi(read_metadata(alloc, bytes)?)),
    }
}

fn read_deb(alloc: Global, bytes: &[u8], rule: StatusRule) -> Result<Found, NoMemory>
    ensures { IfOk result (λ found. found ≡ status_found (status bytes.now rule)) }
{
    match read_status(alloc, bytes, rule) {
        Ok(packages) => Ok(Found::Status(packages)),
        Err(ReadBad::Bad(bad)) => Ok(Found::Bad(bad)),
        Err(ReadBad::NoMemory) => Err(NoMemory),
    }
}

fn read_apk(alloc: Global, bytes: &[u8]) -> Result<Found, NoMemory>
    ensures { IfOk result (λ found. found ≡ installed_found (installed bytes.now)) }
{
    match read_installed(alloc, bytes) {
        Ok(packages) => Ok(Found::Installed(packages)),
        Err(ReadBad::Bad(bad)) => Ok(Found::Bad(bad)),
        Err(ReadBad::NoMemory) => Err(NoMemory),
    }
}
