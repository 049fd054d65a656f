//! Lines and the letters that begin them.
ghost use Rattle.std.specs.Prelude.{◌≡◌};
ghost use Rattle.std.specs.Option.{option_map};
ghost use Rattle.cv_apkdb.specs.code.Steps.{entry_view};
ghost use Rattle.cv_apkdb.specs.Package.{entry_of, letter_of};

/// The letter of a line. Every letter but P, V, A and o is ignored.
#[derive(Clone, Copy, PartialEq, Eq)]
pub enum Letter {
    Name,
    Version,
    Arch,
    Origin,
    Unused,
}

/// A letter and its value.
#[derive(Clone, Copy)]
pub struct Entry<'a> {
    pub letter: Letter,
    pub value: &'a [u8],
}

/// A line as an entry: one byte, a colon and the value.
pub fn split_entry(line: &[u8]) -> Option<Entry<'_>>
    ensures { option_map entry_view result ≡ entry_of line.now }
{
    match line {
        [letter, b':', value @ ..] => Some(Entry {
            letter: letter_of(*letter),
            value,
        }),
        _ => None,
    }
}

fn letter_of(byte: u8) -> Letter
    ensures { result ≡ letter_of byte }
{
    match byte {
        b'P' => Letter::Name,
        b'V' => Letter::Version,
        b'A' => Letter::Arch,
        b'o' => Letter::Origin,
        _ => Letter::Unused,
    }
}
