use cv_base::{Digest, Kind, NoMemory};
use cv_desk::{TableEntry, entry};
use std::alloc::Global;
use test_data::{SampleLayer, dpkg_rows, module_rows};

/// A Debian system with two packages.
static DEBIAN: [TableEntry; 6] = dpkg_rows![
    entry!("etc"),
    entry!("etc/os-release", b"ID=debian\nVERSION_ID=12\n");
    entry!(
        "var/lib/dpkg/status",
        b"Package: curl\nStatus: install ok installed\nArchitecture: amd64\nVersion: 7.88\n\nPackage: zlib1g\nStatus: install ok installed\nArchitecture: amd64\nSource: zlib\nVersion: 1:1.2\n"
    ),
];

/// The packages of the system in other versions.
static UPGRADE: [TableEntry; 4] = dpkg_rows![entry!(
    "var/lib/dpkg/status",
    b"Package: curl\nStatus: install ok installed\nArchitecture: amd64\nVersion: 8.5\n\nPackage: zlib1g\nStatus: install ok installed\nArchitecture: amd64\nSource: zlib\nVersion: 1:1.3\n"
)];

/// Two npm packages.
static MODULES: [TableEntry; 6] = module_rows![
    entry!("app/node_modules/x"),
    entry!(
        "app/node_modules/x/package.json",
        b"{\"name\":\"x\",\"version\":\"1.0.0\"}"
    ),
    entry!("app/node_modules/y"),
    entry!(
        "app/node_modules/y/package.json",
        b"{\"name\":\"y\",\"version\":\"2.0.0\"}"
    ),
];

/// Hides the status file and one of the npm packages of the layers below.
static WHITEOUTS: [TableEntry; 6] = [
    entry!("app"),
    entry!("app/node_modules"),
    entry!("app/node_modules/.wh.x", b""),
    entry!("var"),
    entry!("var/lib"),
    entry!("var/lib/.wh.dpkg", b""),
];

/// A status file whose line 3 has no colon.
static BAD_STATUS: [TableEntry; 4] = dpkg_rows![entry!(
    "var/lib/dpkg/status",
    b"Package: curl\nStatus: install ok installed\nnocolon\n"
)];

/// A file whose folder is no entry.
static BAD_TREE: [TableEntry; 2] = [entry!("etc"), entry!("var/lib/dpkg", b"")];

/// The seals of the layers above, by their letters, as Python's hashlib computed them.
static SEALS: [(u8, &str); 6] = [
    (
        b'd',
        "sha256:eb1a1d47d555a50faa637b3a88c298a8c89d8a4c158967b0d3f0166e048bf8c3",
    ),
    (
        b'u',
        "sha256:fca8dc2c30d1a5054a411a65e7fa788b63bbcaeb7748e4251e87d6717a5c8a21",
    ),
    (
        b'n',
        "sha256:9280b690c8182e59ce483e546ebfe02a8fff0d88f81b943a053d7f32683e71d1",
    ),
    (
        b'w',
        "sha256:23a9e00a82d3479ba45fe40cfedac80b13d16c0ea109b444791a100fd130750b",
    ),
    (
        b's',
        "sha256:a307ce640fc2e6a1c4f0096b55050ab775ebacc2999eef0ab737d58e1409624d",
    ),
    (
        b'b',
        "sha256:3860031287f4ed17a90a4de60e0de02b93fde9a9f7bef648708853e77e2aa639",
    ),
];

/// The seal of zeros, which no layer has.
pub fn zeros() -> Digest {
    Digest::of([0; 32])
}

/// The seal by its sign, if one is stated for the layer of this letter.
pub fn seal_by(sign: u8, letter: u8) -> Option<Digest> {
    match sign {
        b'=' => own_seal(letter),
        b'!' => Some(zeros()),
        _ => None,
    }
}

/// The sign of a seal that is stated for the layer of this letter, or of none.
pub fn sign_of(seal: Option<Digest>, letter: u8) -> u8 {
    match seal {
        None => b'.',
        Some(seal) if seal == zeros() => b'!',
        Some(_) if seal == own_seal(letter) => b'=',
        Some(_) => b'?',
    }
}

/// The seal of the layer of a letter, if there is one.
fn own_seal(letter: u8) -> Option<Digest> {
    for (known, seal) in &SEALS {
        if *known == letter {
            return Digest::read(seal.as_bytes()).ok();
        }
    }
    None
}

/// The letter of the layer that has a seal.
pub fn letter_by(seal: Digest) -> u8 {
    for (letter, known) in &SEALS {
        if Digest::read(known.as_bytes()) == Ok(seal) {
            return *letter;
        }
    }
    b'?'
}

/// The digest of 32 bytes that are all this letter.
pub fn digest(letter: u8) -> Digest {
    Digest::of([letter; 32])
}

/// The layer of a letter, or none.
pub fn layers_of(alloc: Global, letter: u8) -> Result<Vec<SampleLayer>, NoMemory> {
    let mut layers = Vec::new(alloc);
    if let Some(table) = table_of(letter) {
        layers.push(SampleLayer::of(alloc, digest(letter), table)?)?;
    }
    Ok(layers)
}

/// The entries of a layer, if there is one of this letter.
fn table_of(letter: u8) -> Option<&'static [TableEntry]> {
    match letter {
        b'd' => Some(&DEBIAN),
        b'u' => Some(&UPGRADE),
        b'n' => Some(&MODULES),
        b'w' => Some(&WHITEOUTS),
        b's' => Some(&BAD_STATUS),
        b'b' => Some(&BAD_TREE),
        _ => None,
    }
}

/// The letter of a digest.
pub fn letter_of(digest: Digest) -> u8 {
    let [letter, ..] = digest.bytes();
    letter
}
