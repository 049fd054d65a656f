use crate::images::compare::{Compared, compare};
use crate::images::contents::{FIXED, MODULE_X, MODULE_Y, OPENSSL, ZLIB};
use cv_base::{Advisory, Digest, Kind, NoMemory};
use cv_desk::{TableEntry, entry};
use std::alloc::Global;
use test_data::{SampleDesk, SampleLayer, debian_rows, dpkg_rows, module_rows};

/// The known images: each letter or digit is a layer, the base first.
pub static IMAGES: [&str; 9] = ["a", "3", "ab", "ac", "a4", "de", "d0", "d6", "aba"];

/// What both ways say of one of these images.
pub fn compared(alloc: Global, image: &str, advisories: &[Advisory]) -> Result<Compared, NoMemory> {
    let desk = desk(alloc)?;
    match image.as_bytes() {
        [one] => compare(alloc, desk, &[digest(*one)], advisories),
        [one, two] => compare(alloc, desk, &[digest(*one), digest(*two)], advisories),
        [one, two, three] => {
            let image = [digest(*one), digest(*two), digest(*three)];
            compare(alloc, desk, &image, advisories)
        }
        _ => Ok(Compared::Different),
    }
}

fn digest(letter: u8) -> Digest {
    Digest::of([letter; 32])
}

/// The letters and digits of all layers.
const LETTERS: [u8; 9] = *b"abcde0346";

/// A desk with all layers.
fn desk(alloc: Global) -> Result<SampleDesk, NoMemory> {
    let mut layers = Vec::new(alloc);
    for letter in LETTERS {
        layers.push(SampleLayer::of(alloc, digest(letter), layer(letter))?)?;
    }
    Ok(SampleDesk::of(layers))
}

/// The entries of the layer of a letter or digit.
fn layer(letter: u8) -> &'static [TableEntry] {
    match letter {
        b'a' => &DEBIAN_OPENSSL,
        b'b' => &WITHOUT_STATUS,
        b'c' => &OTHER_STATUS,
        b'd' => &MODULES,
        b'e' => &OPAQUE,
        b'0' => &FILE_FOR_FOLDER,
        b'3' => &DEBIAN_FIXED,
        b'4' => &FOLDER_FOR_FILE,
        _ => &ALL_OPAQUE,
    }
}

static DEBIAN_OPENSSL: [TableEntry; 9] = debian_rows!(OPENSSL);

static DEBIAN_FIXED: [TableEntry; 9] = debian_rows!(FIXED);

/// Hides the packages of the layers below.
static WITHOUT_STATUS: [TableEntry; 4] = dpkg_rows![entry!("var/lib/dpkg/.wh.status", b"")];

/// Puts another package in their place.
static OTHER_STATUS: [TableEntry; 5] = dpkg_rows![
    entry!("var/lib/dpkg/.wh.status", b""),
    entry!("var/lib/dpkg/status", ZLIB),
];

/// Two npm packages.
static MODULES: [TableEntry; 8] = module_rows![
    entry!("app/node_modules/x"),
    entry!("app/node_modules/x/package.json", MODULE_X),
    entry!("srv"),
    entry!("srv/node_modules"),
    entry!("srv/node_modules/y"),
    entry!("srv/node_modules/y/package.json", MODULE_Y),
];

/// Hides all that the layers below have in one folder.
static OPAQUE: [TableEntry; 3] = module_rows![entry!("app/node_modules/.wh..wh..opq", b"")];

/// Puts a file in the place of a folder.
static FILE_FOR_FOLDER: [TableEntry; 1] = [entry!("app", b"")];

/// Puts a folder in the place of a file.
static FOLDER_FOR_FILE: [TableEntry; 4] = dpkg_rows![entry!("var/lib/dpkg/status")];

/// Hides all that the layers below have.
static ALL_OPAQUE: [TableEntry; 1] = [entry!(".wh..wh..opq", b"")];
