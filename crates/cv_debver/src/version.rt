ghost use Rattle.std.specs.Prelude.{◌≡◌, ◌==◌, IfSome, ◌<◌, length};
ghost use Rattle.std.specs.Cmp.{IsTotalOrder};
ghost use Rattle.std.specs.List.{position};
ghost use Rattle.cv_order.specs.Laws.{IsTotalPreorder};
ghost use Rattle.cv_debver.specs.Version.{last_position, version_cmp, version_of, with_epoch};

use crate::parts::compare_parts;
use cv_order::{compare_digits, find};
use std::cmp::Ordering;

const COLON: u8 = b':';

const HYPHEN: u8 = b'-';

/// A text's parts: the epoch before the first colon, the revision after the last hyphen, and the upstream version between
/// them. An absent epoch is `0`, and so is an absent revision.
#[derive(Clone, Copy)]
pub(crate) struct Parts<'a> {
    pub epoch: &'a [u8],
    pub upstream: &'a [u8],
    pub revision: &'a [u8],
}

/// Compares two versions: the epochs as numbers of any length, then the upstream versions, then the revisions. Texts that are
/// not valid versions are compared by the same rule. The time is linear in the texts.
pub fn compare(a: &[u8], b: &[u8]) -> Ordering
    ensures { result ≡ version_cmp a.now b.now }
{
    let a = split(a);
    let b = split(b);
    compare_digits(a.epoch, b.epoch)
        .then_with(|| compare_parts(a.upstream, b.upstream))
        .then_with(|| compare_parts(a.revision, b.revision))
}

/// The three laws of the order, `laws`: any two versions compare, the order is transitive, and `compare(b, a)` is the reverse of
/// `compare(a, b)`. `order` holds these in std's form, and that versions that compare equal compare alike with every third.
pub fn version_order_laws()
    ensures laws { IsTotalPreorder version_cmp }
    ensures order { IsTotalOrder version_cmp }
{}

pub(crate) fn split(text: &[u8]) -> Parts<'_>
    ensures epoch { result.epoch.now ≡ (version_of text.now).epoch }
    ensures upstream { result.upstream.now ≡ (version_of text.now).upstream }
    ensures revision { result.revision.now ≡ (version_of text.now).revision }
{
    match find(text, COLON) {
        Some(at) => split_body(&text[..at], &text[at + 1..]),
        None => split_body(b"0", text),
    }
}

fn split_body<'a>(epoch: &'a [u8], body: &'a [u8]) -> Parts<'a>
    ensures epoch { result.epoch.now ≡ (with_epoch epoch.now body.now).epoch }
    ensures upstream { result.upstream.now ≡ (with_epoch epoch.now body.now).upstream }
    ensures revision { result.revision.now ≡ (with_epoch epoch.now body.now).revision }
{
    match find_last(body, HYPHEN) {
        Some(at) => Parts {
            epoch,
            upstream: &body[..at],
            revision: &body[at + 1..],
        },
        None => Parts {
            epoch,
            upstream: body,
            revision: b"0",
        },
    }
}

fn find_last(bytes: &[u8], byte: u8) -> Option<usize>
    ensures place { result ≡ last_position (λ x. x == byte) bytes.now }
    ensures bound { IfSome result (λ place. place < length bytes.now) }
{
    let mut front = bytes;
    while let [rest @ .., last] = front {
        if *last == byte {
            return Some(rest.len());
        }
        front = rest;
    }
    None
}
