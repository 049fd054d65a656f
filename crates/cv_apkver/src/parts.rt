ghost use Rattle.std.specs.Prelude.{◌≡◌, not, position};
ghost use Rattle.std.specs.Option.{option_copied};
ghost use Rattle.cv_apkver.specs.Grammar.{UNDERSCORE, is_letter};
ghost use Rattle.cv_apkver.specs.Parts.{after_letters, before, after, build_part, front_letters, pieces_after, release_part, suffix_parts};

use cv_order::find;

/// What the text of a version is cut into, by its first hyphen and the first underscore before it.
#[derive(Clone, Copy)]
pub(crate) struct Parts<'a> {
    /// `number{.number}[letter]`.
    pub release: &'a [u8],
    /// `suffix[number]{_suffix[number]}`.
    pub suffixes: Option<&'a [u8]>,
    /// `rnumber`.
    pub build: Option<&'a [u8]>,
}

impl<'a> Parts<'a> {
    /// The parts of any text, whether it is a version or not.
    pub fn of(text: &'a [u8]) -> Parts<'a>
        ensures release { result.release.now ≡ release_part text.now }
        ensures suffixes { pieces_after UNDERSCORE (option_copied result.suffixes) ≡ suffix_parts text.now }
        ensures build { option_copied result.build ≡ build_part text.now }
    {
        let (before_build, build) = cut(text, b'-');
        let (release, suffixes) = cut(before_build, b'_');
        Parts {
            release,
            suffixes,
            build,
        }
    }
}

/// The text before the first such byte and the text after it, where there is one.
#[tactic(auto, using(crate::proofs::Fronts::before_some, crate::proofs::Fronts::before_none, crate::proofs::Fronts::rest_some, crate::proofs::Fronts::rest_none))]
pub(crate) fn cut(text: &[u8], byte: u8) -> (&[u8], Option<&[u8]>)
    ensures front { result.0.now ≡ before byte text.now }
    ensures rest { option_copied result.1 ≡ after byte text.now }
{
    match find(text, byte) {
        Some(at) => (&text[..at], Some(&text[at + 1..])),
        None => (text, None),
    }
}

/// The lower-case letters at the front of a text, and what comes after them.
#[tactic(auto, using(cv_order::proofs::Fronts::while_some, cv_order::proofs::Fronts::while_none, cv_order::proofs::Fronts::past_some, cv_order::proofs::Fronts::past_none))]
pub(crate) fn split_word(text: &[u8]) -> (&[u8], &[u8])
    ensures word { result.0.now ≡ front_letters text.now }
    ensures rest { result.1.now ≡ after_letters text.now }
{
    let Some(end) = word_end(text) else {
        return (text, &[]);
    };
    text.split_at(end)
}

fn word_end(text: &[u8]) -> Option<usize>
    ensures { result ≡ position (λ c. not (is_letter c)) text.now }
{
    text.iter().position(|byte| !byte.is_ascii_lowercase())
}
