/// A version of an installed package, with a number that grows as the versions of the package do.
#[derive(Clone, Copy)]
pub struct Version {
    pub package: &'static str,
    pub text: &'static str,
    pub rank: u32,
}

macro_rules! version {
    ($package:literal, $text:literal, $rank:literal) => {
        Some(Version {
            package: $package,
            text: $text,
            rank: $rank,
        })
    };
}

/// Why an image is bad.
#[derive(Clone, Copy)]
pub enum Fault {
    /// The layer of this index is not there.
    NoLayer(u32),
    /// In the tree of the layer of this index, the second entry has no parent.
    BadTree(u32),
    /// The layer of this index and letter has another seal than the stated one.
    BadSeal(u32, u8),
    /// Line 3 of the status file is bad.
    BadStatus,
}

/// What an image has: a version of each package that is installed.
#[derive(Clone, Copy)]
pub struct Contents {
    pub curl: Option<Version>,
    pub zlib: Option<Version>,
    pub x: Option<Version>,
    pub y: Option<Version>,
    is_bad: bool,
}

/// The fault of an image of these layers, the base first, with the signs of their seals: the first layer that is not there, or else
/// the first that is not good, or else the first with another seal, or else a bad status file that no later layer hides or replaces.
pub fn fault_of(layers: &[u8], seals: &[u8]) -> Option<Fault> {
    if let Some(index) = index_of(layers, b'm') {
        return Some(Fault::NoLayer(index));
    }
    if let Some(index) = index_of(layers, b'b') {
        return Some(Fault::BadTree(index));
    }
    if let Some(index) = index_of(seals, b'!') {
        return Some(Fault::BadSeal(index, letter_at(layers, index)));
    }
    if contents_of(layers).is_bad {
        return Some(Fault::BadStatus);
    }
    None
}

/// The index of the first of these letters or signs that is this one.
fn index_of(letters: &[u8], wanted: u8) -> Option<u32> {
    let mut index: u32 = 0;
    for letter in letters {
        if *letter == wanted {
            return Some(index);
        }
        index = index.saturating_add(1);
    }
    None
}

fn letter_at(letters: &[u8], index: u32) -> u8 {
    match letters.get(index as usize) {
        Some(letter) => *letter,
        None => b'?',
    }
}

/// What an image of these layers has, the base first.
pub fn contents_of(layers: &[u8]) -> Contents {
    let mut contents = Contents {
        curl: None,
        zlib: None,
        x: None,
        y: None,
        is_bad: false,
    };
    for layer in layers {
        contents = laid(contents, *layer);
    }
    contents
}

/// The contents with one more layer on top.
fn laid(below: Contents, layer: u8) -> Contents {
    match layer {
        b'd' => Contents {
            curl: version!("curl", "7.88", 788),
            zlib: version!("zlib1g", "1:1.2", 1200),
            is_bad: false,
            ..below
        },
        b'u' => Contents {
            curl: version!("curl", "8.5", 850),
            zlib: version!("zlib1g", "1:1.3", 1300),
            is_bad: false,
            ..below
        },
        b's' => Contents {
            is_bad: true,
            ..below
        },
        b'n' => Contents {
            x: version!("x", "1.0.0", 100),
            y: version!("y", "2.0.0", 200),
            ..below
        },
        b'w' => Contents {
            curl: None,
            zlib: None,
            x: None,
            is_bad: false,
            ..below
        },
        _ => below,
    }
}
