ghost use Rattle.std.specs.Prelude.{◌≤◌, length};

use cv_base::{Advisory, Digest, Finding, MAX_LAYERS, NoMemory, Seq, Text};
use cv_scan::{ImageError, scan_image};
use cv_scan_image::scan_layers;
use std::alloc::Global;
use test_data::SampleDesk;

/// What both ways of scanning an image say.
#[derive(Clone, Copy)]
pub enum Compared {
    /// The number of findings, which are the same in both ways.
    Found(usize),
    /// The image is bad, for the same reason in both ways.
    Bad,
    Different,
}

/// Scans an image of a desk's layers by its root, and by the reductions of its layers.
pub fn compare(
    alloc: Global,
    desk: SampleDesk,
    image: &[Digest],
    advisories: &[Advisory],
) -> Result<Compared, NoMemory>
    requires { length image.now ≤ MAX_LAYERS }
{
    let feed = Text::of(alloc, "scan")?;
    let mut desk = desk.renewed();
    let by_root = scan_image(alloc, &mut desk, image, &feed, advisories);
    let mut desk = desk.renewed();
    let seals = vec![in alloc; None; image.len()]?;
    let by_layers = scan_layers(alloc, &mut desk, image, &seals, &feed, advisories);
    outcome(&by_root, &by_layers)
}

fn outcome(
    by_root: &Result<Seq<Finding>, ImageError>,
    by_layers: &Result<Seq<Finding>, ImageError>,
) -> Result<Compared, NoMemory> {
    if by_root != by_layers {
        return Ok(Compared::Different);
    }
    match by_layers {
        Ok(found) => Ok(Compared::Found(found.as_slice().len())),
        Err(ImageError::Bad(_)) => Ok(Compared::Bad),
        Err(ImageError::Desk(_)) => Ok(Compared::Different),
        Err(ImageError::NoMemory) => Err(NoMemory),
    }
}
