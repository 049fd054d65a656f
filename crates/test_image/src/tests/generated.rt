use cv_base::{Digest, RelPath};
use cv_desk::{Desk, FileRead};
use cv_desk_drill::GenDesk;
use std::alloc::Global;
use std::str;
use std::test::Fail;

/// A layer by its role and number, its paths with a line feed each, and some of its files with their texts. The middle of a long text is
/// left out: three dots stand for it.
struct Known {
    role: u8,
    number: u8,
    paths: &'static str,
    files: &'static [(&'static str, &'static str)],
}

static LAYERS: [Known; 4] = [
    Known {
        role: 0,
        number: 7,
        paths: "etc\netc/os-release\nvar\nvar/lib\nvar/lib/dpkg\nvar/lib/dpkg/status\n",
        files: &[
            ("etc/os-release", "ID=debian\nVERSION_ID=\"12\"\n"),
            (
                "var/lib/dpkg/status",
                "Package: p07\nStatus: install ok installed\nArchitecture: amd64\nVersion: 1.7-1\n\nPackage: p08\n...Package: p26\nStatus: install ok installed\nArchitecture: amd64\nVersion: 1.40-1\n\n",
            ),
        ],
    },
    Known {
        role: 1,
        number: 99,
        paths: "var\nvar/lib\nvar/lib/dpkg\nvar/lib/dpkg/status\n",
        files: &[(
            "var/lib/dpkg/status",
            "Package: p99\n...Package: p28\nStatus: install ok installed\nArchitecture: amd64\nVersion: 1.2-1\n\n",
        )],
    },
    Known {
        role: 2,
        number: 95,
        paths: "app\napp/node_modules\napp/node_modules/n00\napp/node_modules/n00/package.json\napp/node_modules/n01\n...app/node_modules/n99\napp/node_modules/n99/package.json\n",
        files: &[(
            "app/node_modules/n00/package.json",
            "{\"name\":\"n00\",\"version\":\"1.30.0\"}",
        )],
    },
    Known {
        role: 3,
        number: 1,
        paths: "app\napp/node_modules\napp/node_modules/.wh..wh..opq\n",
        files: &[("app/node_modules/.wh..wh..opq", "")],
    },
];

#[test]
fn a_role_and_a_number_spell_a_layer(rt: HostRuntime) -> Result<(), Fail> {
    let alloc = rt.alloc();
    for known in LAYERS.iter() {
        let layer = spelled(known.role, known.number);
        let paths = paths(alloc, &layer)?;
        assert!(rt; is_like(paths.as_str(), known.paths), "{paths}");
        for (file, want) in known.files {
            let text = text(alloc, &layer, file)?;
            assert!(rt; is_like(text.as_str(), want), "{text}");
        }
    }
    Ok(())
}

#[test]
fn other_digests_have_no_layer(rt: HostRuntime) -> Result<(), Fail> {
    for (place, byte) in [(0, 4), (5, 1), (31, 1)] {
        let mut bytes = [0; 32];
        bytes[place] = byte;
        let found = GenDesk::new().list(rt.alloc(), &Digest::of(bytes))?;
        assert!(rt; found.is_none(), "byte {place}");
    }
    Ok(())
}

/// The digest of a role and a number below 256.
fn spelled(role: u8, number: u8) -> Digest {
    let mut bytes = [0; 32];
    bytes[0] = role;
    bytes[4] = number;
    Digest::of(bytes)
}

/// The paths of a layer, each with a line feed.
fn paths(alloc: Global, layer: &Digest) -> Result<String, Fail> {
    let mut desk = GenDesk::new();
    let mut out = String::new(alloc);
    if let Some(entries) = desk.list(alloc, layer)? {
        for entry in entries.as_slice() {
            out.push_str(entry.path.text())?;
            out.push_str("\n")?;
        }
    }
    Ok(out)
}

/// The text of a file.
fn text(alloc: Global, layer: &Digest, path: &str) -> Result<String, Fail> {
    let mut desk = GenDesk::new();
    let path = RelPath::read(alloc, path)?;
    match desk.read(alloc, layer, &path, 10_000)? {
        FileRead::Bytes(bytes) => Ok(String::from_str(alloc, str::from_utf8(bytes.as_slice())?)?),
        FileRead::TooLarge | FileRead::NotFile => Err(Fail::from("there is no file")),
    }
}

/// Whether a text is the one that is wanted, or has its beginning and its end.
fn is_like(text: &str, want: &str) -> bool {
    match want.split_once("...") {
        Some((first, last)) => text.starts_with(first) && text.ends_with(last),
        None => text == want,
    }
}
