ghost use Rattle.std.specs.Prelude.{◌≡◌};
ghost use Rattle.test_commands.specs.Layers.{rows_by, rows_of};

use cv_base::{Digest, Kind};
use cv_desk::{Table, TableEntry, entry};
use test_data::{debian_rows, dpkg_rows, module_rows};

/// A Debian system with a package below its fixed version.
static OLD: [TableEntry; 9] = debian_rows!(
    b"Package: libssl3\nStatus: install ok installed\nArchitecture: amd64\nSource: openssl (3.0.9-1)\nVersion: 3.0.9-1+b1\n"
);

/// The same system with the fixed version.
static FIXED: [TableEntry; 9] = debian_rows!(
    b"Package: libssl3\nStatus: install ok installed\nArchitecture: amd64\nSource: openssl (3.0.11-1)\nVersion: 3.0.11-1\n"
);

/// The same system with a version of one digit.
static SHORT: [TableEntry; 9] = debian_rows!(
    b"Package: libssl3\nStatus: install ok installed\nArchitecture: amd64\nSource: openssl (9)\nVersion: 9\n"
);

/// Takes the packages of the layers below away.
static WITHOUT: [TableEntry; 4] = dpkg_rows![entry!("var/lib/dpkg/.wh.status", b"")];

/// Puts another package in their place.
static OTHER: [TableEntry; 5] = dpkg_rows![
    entry!("var/lib/dpkg/.wh.status", b""),
    entry!(
        "var/lib/dpkg/status",
        b"Package: zlib1g\nStatus: install ok installed\nArchitecture: amd64\nSource: zlib\nVersion: 1:1.2.13.dfsg-1\n"
    ),
];

/// Two npm packages.
static MODULES: [TableEntry; 8] = module_rows![
    entry!("app/node_modules/x"),
    entry!(
        "app/node_modules/x/package.json",
        b"{\"name\":\"x\",\"version\":\"1.0.0\"}"
    ),
    entry!("srv"),
    entry!("srv/node_modules"),
    entry!("srv/node_modules/y"),
    entry!(
        "srv/node_modules/y/package.json",
        b"{\"name\":\"y\",\"version\":\"1.0.0\"}"
    ),
];

/// Takes all that the layers below have in one folder away.
static OPAQUE: [TableEntry; 3] = module_rows![entry!("app/node_modules/.wh..wh..opq", b"")];

/// Puts a file in the place of a folder.
static FILE: [TableEntry; 1] = [entry!("app", b"")];

/// A status file whose line 3 has no colon.
static BROKEN: [TableEntry; 4] = dpkg_rows![entry!(
    "var/lib/dpkg/status",
    b"Package: a\nStatus: install ok installed\nnocolon\n"
)];

/// An Alpine system.
static ALPINE: [TableEntry; 6] = [
    entry!("etc"),
    entry!("etc/os-release", b"ID=alpine\nVERSION_ID=3.18.4\n"),
    entry!("lib"),
    entry!("lib/apk"),
    entry!("lib/apk/db"),
    entry!(
        "lib/apk/db/installed",
        b"P:libcrypto3\nV:3.1.1-r1\nA:x86_64\no:openssl\n\n"
    ),
];

/// A mark that names nothing.
static MARKED: [TableEntry; 1] = [entry!(".wh.", b"")];

/// A folder in the place of the status file.
static FOLDER: [TableEntry; 4] = dpkg_rows![entry!("var/lib/dpkg/status")];

/// Takes all that the layers below have away.
static EMPTIED: [TableEntry; 1] = [entry!(".wh..wh..opq", b"")];

/// A Python package.
static PYTHON: [TableEntry; 3] = [
    entry!("opt"),
    entry!("opt/Foo_Bar-1.0.dist-info"),
    entry!(
        "opt/Foo_Bar-1.0.dist-info/METADATA",
        b"Name: Foo.Bar\nVersion: 1.0\n\ntext\n"
    ),
];

/// Layers by the first byte of their digests.
pub struct Layers;

impl Table for Layers {
    ghost rows = { rows_of };

    fn layer(digest: &Digest) -> Option<&'static [TableEntry]> {
        let [byte, ..] = digest.bytes();
        match byte {
            0xaa => Some(&OLD),
            0xbb => Some(&WITHOUT),
            0xcc => Some(&OTHER),
            0xdd => Some(&MODULES),
            0xee => Some(&OPAQUE),
            0xff => Some(&BROKEN),
            0x00 => Some(&FILE),
            0x22 => Some(&ALPINE),
            0x33 => Some(&FIXED),
            0x44 => Some(&FOLDER),
            0x55 => Some(&MARKED),
            0x66 => Some(&EMPTIED),
            0x77 => Some(&SHORT),
            0x88 => Some(&PYTHON),
            _ => None,
        }
    }
}
