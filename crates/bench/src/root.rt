ghost use Rattle.std.specs.Prelude.{◌<◌, ◌≤◌, ◌^◌, length};
ghost use Rattle.cv_base.specs.declared.limits.TheConstants.{MAX_LAYERS};

use cv_base::{Digest, Finding, MAX_LAYERS, NoMemory, Seq, Text};
use cv_desk::Desk;
use cv_desk_folder::FolderDesk;
use cv_scan::{ImageError, scan_image};
use std::alloc::Global;

/// Scans the image of these layers, which lie in the working directory, by its root and with no record. Gives 1, or 0 if the image
/// cannot be scanned.
pub fn scanned(rt: &HostRuntime, names: &[String]) -> Result<u64, NoMemory> {
    let Some(layers) = digests(rt.alloc(), names)? else {
        return Ok(0);
    };
    if layers.is_empty() || layers.len() > MAX_LAYERS {
        return Ok(0);
    }
    scan(rt, &layers)
}

fn scan(rt: &HostRuntime, layers: &[Digest]) -> Result<u64, NoMemory>
    requires at_most_128_layers { length layers.now ≤ MAX_LAYERS }
{
    match rt.clone() {
        Ok(host) => scan_at(rt.alloc(), &mut FolderDesk::new(host), layers),
        Err(_) => Err(NoMemory),
    }
}

fn scan_at<D: Desk>(alloc: Global, desk: &mut D, layers: &[Digest]) -> Result<u64, NoMemory>
    requires room { D.listings desk.old < 2 ^ 62 }
    requires at_most_128_layers { length layers.now ≤ MAX_LAYERS }
{
    let feed = Text::of(alloc, "scan")?;
    count_of(scan_image(alloc, desk, layers, &feed, &[]))
}

fn count_of(found: Result<Seq<Finding>, ImageError>) -> Result<u64, NoMemory> {
    match found {
        Ok(_) => Ok(1),
        Err(ImageError::NoMemory) => Err(NoMemory),
        Err(_) => Ok(0),
    }
}

/// The digests of these texts, or none if one is not a digest.
fn digests(alloc: Global, names: &[String]) -> Result<Option<Vec<Digest>>, NoMemory> {
    let mut digests = Vec::new(alloc);
    for name in names {
        match Digest::read(name.as_str().as_bytes()) {
            Ok(digest) => digests.push(digest)?,
            Err(_) => return Ok(None),
        }
    }
    Ok(Some(digests))
}
