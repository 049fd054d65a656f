use crate::images::compare::{Compared, compare};
use crate::images::contents::{ALPINE, BROKEN, CRYPTO, DEBIAN, MODULE_X, MODULE_Y, OPENSSL, ZLIB};
use cv_base::{Advisory, Digest, Kind, NoMemory};
use std::alloc::Global;
use test_data::{SampleDesk, SampleEntry, SampleLayer};

/// How many images are made.
const IMAGES: u64 = 500;

/// A tenth of them.
pub const TENTH: u64 = 50;

/// How many layers an image is made of.
const LAYERS: u8 = 4;

/// What may stand at a path.
#[derive(Clone, Copy)]
enum Role {
    Folder,
    Mark,
    Status,
    Installed,
    OsRelease,
    Module,
}

/// A path at which a layer may have an entry, if it has the folder above.
struct Place {
    folder: &'static str,
    path: &'static str,
    role: Role,
}

macro_rules! place {
    ($folder:literal, $path:literal, $role:ident) => {
        Place {
            folder: $folder,
            path: $path,
            role: Role::$role,
        }
    };
}

/// In the order of paths.
static PLACES: [Place; 33] = [
    place!("", ".wh..wh..opq", Mark),
    place!("", ".wh.app", Mark),
    place!("", ".wh.var", Mark),
    place!("", "app", Folder),
    place!("app", "app/.wh..wh..opq", Mark),
    place!("app", "app/.wh.node_modules", Mark),
    place!("app", "app/node_modules", Folder),
    place!("app/node_modules", "app/node_modules/.wh..wh..opq", Mark),
    place!("app/node_modules", "app/node_modules/.wh.x", Mark),
    place!("app/node_modules", "app/node_modules/x", Folder),
    place!(
        "app/node_modules/x",
        "app/node_modules/x/.wh.package.json",
        Mark
    ),
    place!(
        "app/node_modules/x",
        "app/node_modules/x/package.json",
        Module
    ),
    place!("", "etc", Folder),
    place!("etc", "etc/.wh.os-release", Mark),
    place!("etc", "etc/os-release", OsRelease),
    place!("", "lib", Folder),
    place!("lib", "lib/apk", Folder),
    place!("lib/apk", "lib/apk/.wh.db", Mark),
    place!("lib/apk", "lib/apk/db", Folder),
    place!("lib/apk/db", "lib/apk/db/installed", Installed),
    place!("", "usr", Folder),
    place!("usr", "usr/.wh..wh..opq", Mark),
    place!("usr", "usr/lib", Folder),
    place!("usr/lib", "usr/lib/os-release", OsRelease),
    place!("", "var", Folder),
    place!("var", "var/.wh..wh..opq", Mark),
    place!("var", "var/.wh.lib", Mark),
    place!("var", "var/lib", Folder),
    place!("var/lib", "var/lib/.wh.dpkg", Mark),
    place!("var/lib", "var/lib/dpkg", Folder),
    place!("var/lib/dpkg", "var/lib/dpkg/.wh..wh..opq", Mark),
    place!("var/lib/dpkg", "var/lib/dpkg/.wh.status", Mark),
    place!("var/lib/dpkg", "var/lib/dpkg/status", Status),
];

/// How many made images have the same answer in both ways, by that answer, and how many do not.
#[derive(Clone, Copy)]
pub struct Tally {
    pub found: u64,
    pub empty: u64,
    pub bad: u64,
    pub different: u64,
}

impl Tally {
    /// How many images have the same answer in both ways.
    pub fn same(&self) -> u64 {
        self.found
            .saturating_add(self.empty)
            .saturating_add(self.bad)
    }

    fn count(&mut self, compared: Compared) {
        match compared {
            Compared::Found(0) => self.empty = self.empty.saturating_add(1),
            Compared::Found(_) => self.found = self.found.saturating_add(1),
            Compared::Bad => self.bad = self.bad.saturating_add(1),
            Compared::Different => self.different = self.different.saturating_add(1),
        }
    }
}

/// Makes images, and compares what both ways say of each.
pub fn compare_all(alloc: Global, advisories: &[Advisory]) -> Result<Tally, NoMemory> {
    let mut draws = Draws { state: 1 };
    let mut tally = Tally {
        found: 0,
        empty: 0,
        bad: 0,
        different: 0,
    };
    for _ in 0..IMAGES {
        let desk = draws.desk(alloc)?;
        let image = [draws.layer(), draws.layer(), draws.layer(), draws.layer()];
        tally.count(compare(alloc, desk, &image, advisories)?);
    }
    Ok(tally)
}

/// Numbers that look random and are the same in each run, by a linear congruence.
#[derive(Drop)]
struct Draws {
    state: u64,
}

impl Draws {
    /// The next number. It is below 512.
    fn next(&mut self) -> u64 {
        self.state = self
            .state
            .wrapping_mul(6_364_136_223_846_793_005)
            .wrapping_add(1_442_695_040_888_963_407);
        self.state >> 55
    }

    /// The digest of one of the layers, and seldom one without a layer.
    fn layer(&mut self) -> Digest {
        match self.next() {
            0..=3 => Digest::of([LAYERS; 32]),
            4..=127 => Digest::of([0; 32]),
            128..=255 => Digest::of([1; 32]),
            256..=383 => Digest::of([2; 32]),
            _ => Digest::of([3; 32]),
        }
    }

    fn desk(&mut self, alloc: Global) -> Result<SampleDesk, NoMemory> {
        let mut layers = Vec::new(alloc);
        for byte in 0..LAYERS {
            layers.push(SampleLayer {
                digest: Digest::of([byte; 32]),
                entries: self.entries(alloc)?,
            })?;
        }
        Ok(SampleDesk::of(layers))
    }

    fn entries(&mut self, alloc: Global) -> Result<Vec<SampleEntry>, NoMemory> {
        let mut entries = Vec::new(alloc);
        for place in PLACES.iter() {
            let draw = self.next();
            if has_folder(&entries, place.folder) {
                add_entry(alloc, &mut entries, place, draw)?;
            }
        }
        Ok(entries)
    }
}

fn has_folder(entries: &[SampleEntry], folder: &str) -> bool {
    folder.is_empty()
        || entries
            .iter()
            .any(|entry| entry.kind == Kind::Dir && entry.path == folder)
}

fn add_entry(
    alloc: Global,
    entries: &mut Vec<SampleEntry>,
    place: &Place,
    draw: u64,
) -> Result<(), NoMemory> {
    let item = match place.role {
        Role::Folder => folder(draw),
        Role::Mark => mark(draw),
        Role::Status => file(draw, OPENSSL, ZLIB),
        Role::Installed => file(draw, CRYPTO, b""),
        Role::OsRelease => file(draw, DEBIAN, ALPINE),
        Role::Module => file(draw, MODULE_X, MODULE_Y),
    };
    if let Some((kind, bytes)) = item {
        entries.push(SampleEntry {
            path: place.path,
            kind,
            bytes: bytes.to_vec(alloc)?,
        })?;
    }
    Ok(())
}

/// Mostly a folder, and sometimes nothing, a file or a link in its place.
fn folder(draw: u64) -> Option<(Kind, &'static [u8])> {
    match draw {
        0..=31 => Some((Kind::File, b"")),
        32..=47 => Some((Kind::Other, b"")),
        48..=111 => None,
        _ => Some((Kind::Dir, b"")),
    }
}

/// Mostly nothing, sometimes a mark, and seldom a bad one.
fn mark(draw: u64) -> Option<(Kind, &'static [u8])> {
    match draw {
        0 => Some((Kind::Dir, b"")),
        1..=47 => Some((Kind::File, b"")),
        _ => None,
    }
}

/// Nothing, or one of two files, and sometimes a bad file, a folder or a link in their place.
fn file(draw: u64, first: &'static [u8], second: &'static [u8]) -> Option<(Kind, &'static [u8])> {
    match draw {
        0..=159 => Some((Kind::File, first)),
        160..=319 => Some((Kind::File, second)),
        320..=327 => Some((Kind::File, BROKEN)),
        328..=359 => Some((Kind::Dir, b"")),
        360..=375 => Some((Kind::Other, b"")),
        _ => None,
    }
}
