ghost use Rattle.std.specs.Prelude.{◌≡◌, IfOk};

use crate::desk::{SampleDesk, SampleEntry, SampleLayer};
use crate::dpkg_rows;
use crate::facts::facts_of;
use crate::images::{LAYERS, number_of};
use cv_base::{Digest, Kind, NoMemory};
use cv_desk::{TableEntry, entry};
use cv_facts::LayerFacts;
use std::alloc::Global;

/// How many packages there are.
pub const NAMES: u64 = 5000;

/// How many packages the status file of a layer has.
const PACKAGES: u64 = 100;

/// How far the names of packages move from one image to the next.
const STEP: u64 = 37;

/// What all layers have.
static SYSTEM: [TableEntry; 6] = dpkg_rows![
    entry!("usr"),
    entry!("usr/lib"),
    entry!("usr/lib/os-release", b"ID=debian\nVERSION_ID=\"12\"\n");
];

/// The facts of the layer of an image: an os-release, and a dpkg status file of a hundred packages.
pub fn image_facts(alloc: Global, digest: Digest) -> Result<LayerFacts<SampleDesk>, NoMemory>
    ensures { IfOk result (λ facts. facts.digest ≡ digest) }
{
    let layer = image_layer(alloc, digest)?;
    facts_of(alloc, digest, vec![in alloc; layer]?)
}

fn image_layer(alloc: Global, digest: Digest) -> Result<SampleLayer, NoMemory> {
    let mut layer = SampleLayer::of(alloc, digest, &SYSTEM)?;
    layer.entries.push(SampleEntry {
        path: "var/lib/dpkg/status",
        kind: Kind::File,
        bytes: status(alloc, number_of(&digest))?.into_bytes(),
    })?;
    Ok(layer)
}

/// The status file of the layer of a number.
fn status(alloc: Global, number: u64) -> Result<String, NoMemory> {
    let mut status = String::new(alloc);
    let first = (number / LAYERS).wrapping_mul(STEP);
    for index in 0..PACKAGES {
        add_package(alloc, &mut status, first.wrapping_add(index) % NAMES)?;
    }
    Ok(status)
}

/// Adds the paragraph of a package.
fn add_package(alloc: Global, status: &mut String, name: u64) -> Result<(), NoMemory> {
    let package = format!(in alloc;
        "Package: p{name}\nStatus: install ok installed\nPriority: optional\n"
    )?;
    status.push_str(package.as_str())?;
    status.push_str(
        "Section: libs\nArchitecture: amd64\nVersion: 1.2\nDescription: a library\n\n",
    )?;
    Ok(())
}
