ghost use Rattle.std.specs.Prelude.{◌≡◌, ◌<◌, IfSome, length, map};
ghost use Rattle.std.specs.List.{position};
ghost use Rattle.std.specs.Option.{option_copied};
ghost use Rattle.cv_pep440.specs.Bytes.{is_separator};
ghost use Rattle.cv_pep440.specs.Parts.{after_any, after_epoch, after_mark, after_part, after_release, after_separator, after_word, bare_post_of, begins_with_digit, dev_of, epoch_of, post_of, pre_of, pre_word, release_text, tail_of, with_number, word_of};
ghost use Rattle.cv_pep440.specs.code.View.{part_seen, tail_seen, word_seen};
ghost use Rattle.cv_pep440.specs.code.Walk.{after_run, front_run};

use crate::rank::{ALPHA_RANK, BETA_RANK, CANDIDATE_RANK, ONLY_RANK};
use cv_order::split_digits;

/// Whether the text begins with a digit.
pub(crate) fn begins_with_digit(text: &[u8]) -> bool
    ensures { result ≡ begins_with_digit text.now }
{
    match text {
        [first, ..] => first.is_ascii_digit(),
        [] => false,
    }
}

/// What comes after the optional `v`.
pub(crate) fn skip_mark(text: &[u8]) -> &[u8]
    ensures { result.now ≡ after_mark text.now }
{
    match text {
        [b'v' | b'V', rest @ ..] => rest,
        _ => text,
    }
}

/// The digits of the epoch, none where it is absent, and what comes after it.
pub(crate) fn split_epoch(text: &[u8]) -> (&[u8], &[u8])
    ensures epoch { result.0.now ≡ epoch_of text.now }
    ensures rest { result.1.now ≡ after_epoch text.now }
{
    if begins_with_digit(text) {
        let (digits, rest) = split_digits(text);
        if let [b'!', rest @ ..] = rest {
            return (digits, rest);
        }
    }
    (&[], text)
}

/// What comes after the release.
pub(crate) fn skip_release(text: &[u8]) -> &[u8]
    ensures { result.now ≡ after_release text.now }
{
    let mut remaining = text;
    while let [byte, rest @ ..] = remaining {
        let goes_on = byte.is_ascii_digit() || *byte == b'.' && begins_with_digit(rest);
        if !goes_on {
            return remaining;
        }
        remaining = rest;
    }
    remaining
}

/// What comes after the optional separator.
pub(crate) fn skip_separator(text: &[u8]) -> &[u8]
    ensures { result.now ≡ after_separator text.now }
{
    match text {
        [b'-' | b'_' | b'.', rest @ ..] => rest,
        _ => text,
    }
}

/// What comes after the word, which is in lower case, where the text begins with it in any case.
fn strip_word<'a>(text: &'a [u8], word: &[u8]) -> Option<&'a [u8]>
    ensures { option_copied result ≡ after_word word.now text.now }
{
    let mut letters = word;
    let mut remaining = text;
    while let [letter, more @ ..] = letters {
        let [byte, rest @ ..] = remaining else {
            return None;
        };
        if byte.to_ascii_lowercase() != *letter {
            return None;
        }
        letters = more;
        remaining = rest;
    }
    Some(remaining)
}

/// What comes after the first of these words that the text begins with.
fn strip_any<'a>(text: &'a [u8], words: &[&str]) -> Option<&'a [u8]>
    ensures { option_copied result ≡ after_any (map (λ word. word.now) words.now) text.now }
{
    for word in words {
        if let Some(rest) = strip_word(text, word.as_bytes()) {
            return Some(rest);
        }
    }
    None
}

/// A word by its rank among the words of a part, and what comes after it.
#[derive(Clone, Copy)]
pub(crate) struct Word<'a> {
    rank: u8,
    rest: &'a [u8],
}

/// One of these words, which have this rank.
fn split_word<'a>(rank: u8, text: &'a [u8], words: &[&str]) -> Option<Word<'a>>
    ensures { word_seen result ≡ word_of rank (map (λ word. word.now) words.now) text.now }
{
    let rest = strip_any(text, words)?;
    Some(Word { rank, rest })
}

/// The word of a pre-release.
fn split_pre_word(text: &[u8]) -> Option<Word<'_>>
    ensures { word_seen result ≡ pre_word text.now }
{
    split_word(ALPHA_RANK, text, &["alpha", "a"])
        .or_else(|| split_word(BETA_RANK, text, &["beta", "b"]))
        .or_else(|| split_word(CANDIDATE_RANK, text, &["preview", "pre", "rc", "c"]))
}

/// A part of a version: the rank of its word, the digits of its number, none where it is absent, and what comes after it.
#[derive(Clone, Copy)]
pub(crate) struct Part<'a> {
    pub rank: u8,
    pub number: &'a [u8],
    rest: &'a [u8],
}

/// The part that a word begins, with the number after it.
fn with_number(word: Option<Word<'_>>) -> Option<Part<'_>>
    ensures { part_seen result ≡ with_number (word_seen word.entry) }
{
    let Word { rank, rest } = word?;
    let digits = skip_separator(rest);
    if begins_with_digit(digits) {
        let (number, rest) = split_digits(digits);
        Some(Part { rank, number, rest })
    } else {
        Some(Part {
            rank,
            number: &[],
            rest,
        })
    }
}

/// `[separator]word[[separator]digits]` of a pre-release.
fn split_pre(text: &[u8]) -> Option<Part<'_>>
    ensures { part_seen result ≡ pre_of text.now }
{
    with_number(split_pre_word(skip_separator(text)))
}

/// `-digits`, a post-release without a word.
fn split_bare_post(text: &[u8]) -> Option<Part<'_>>
    ensures { part_seen result ≡ bare_post_of text.now }
{
    match text {
        [b'-', digits @ ..] if begins_with_digit(digits) => {
            let (number, rest) = split_digits(digits);
            Some(Part {
                rank: ONLY_RANK,
                number,
                rest,
            })
        }
        _ => None,
    }
}

/// `-digits`, or `[separator]word[[separator]digits]` of a post-release.
fn split_post(text: &[u8]) -> Option<Part<'_>>
    ensures { part_seen result ≡ post_of text.now }
{
    match split_bare_post(text) {
        Some(part) => Some(part),
        None => with_number(split_word(ONLY_RANK, skip_separator(text), &["post", "rev", "r"])),
    }
}

/// `[separator]word[[separator]digits]` of a development release.
fn split_dev(text: &[u8]) -> Option<Part<'_>>
    ensures { part_seen result ≡ dev_of text.now }
{
    with_number(split_word(ONLY_RANK, skip_separator(text), &["dev"]))
}

/// What comes after the part, if the text begins with one.
fn skip_part<'a>(part: Option<Part<'a>>, text: &'a [u8]) -> &'a [u8]
    ensures { result.now ≡ after_part (part_seen part.entry) text.now }
{
    match part {
        Some(part) => part.rest,
        None => text,
    }
}

/// What a text is cut into, from the left.
#[derive(Clone, Copy)]
pub(crate) struct Parts<'a> {
    /// The digits of the epoch, none where it is absent.
    pub epoch: &'a [u8],
    /// The text from the release on.
    pub release: &'a [u8],
    pub pre: Option<Part<'a>>,
    pub post: Option<Part<'a>>,
    pub dev: Option<Part<'a>>,
    /// What comes after these: in a version nothing, or `+` and the local version.
    pub local: &'a [u8],
}

impl<'a> Parts<'a> {
    /// The parts of any text, whether it is a version or not.
    pub fn of(text: &'a [u8]) -> Parts<'a>
        ensures epoch { result.epoch.now ≡ epoch_of (after_mark text.now) }
        ensures release { result.release.now ≡ release_text text.now }
        ensures tail { tail_seen result ≡ tail_of (after_release (release_text text.now)) }
    {
        let (epoch, release) = split_epoch(skip_mark(text));
        let after_release = skip_release(release);
        let pre = split_pre(after_release);
        let after_pre = skip_part(pre, after_release);
        let post = split_post(after_pre);
        let after_post = skip_part(post, after_pre);
        let dev = split_dev(after_post);
        Parts {
            epoch,
            release,
            pre,
            post,
            dev,
            local: skip_part(dev, after_post),
        }
    }
}

/// The text before the first separator and the text after it, where there is one.
#[tactic(auto, using(crate::proofs::Runs::front_run_some, crate::proofs::Runs::front_run_none, crate::proofs::Runs::after_run_some, crate::proofs::Runs::after_run_none))]
pub(crate) fn cut_run(text: &[u8]) -> (&[u8], Option<&[u8]>)
    ensures front { result.0.now ≡ front_run text.now }
    ensures rest { option_copied result.1 ≡ after_run text.now }
{
    match separator_position(text) {
        Some(at) => (&text[..at], Some(&text[at + 1..])),
        None => (text, None),
    }
}

fn separator_position(text: &[u8]) -> Option<usize>
    ensures place { result ≡ position is_separator text.now }
    ensures bound { IfSome result (λ place. place < length text.now) }
{
    text.iter()
        .position(|byte| matches!(byte, b'-' | b'_' | b'.'))
}
