ghost use Rattle.std.specs.Prelude.{◌≡◌, ℕ, List, length, IfOk, MatchResult, Some, None};
ghost use Rattle.std.specs.List.{list_all};
ghost use Rattle.std.specs.Option.{option_map};
ghost use Rattle.std.specs.Result.{result_ok};
ghost use Rattle.hex.specs.Hex.{IsBytes, decode_sized};
ghost use Rattle.cv_base.specs.Digest.{digest_of, digest_text, digits_of, is_lower_digit};

use cv_seq::{NoMemory, Text};
use hex::FromHex;
use std::alloc::Global;
use std::marker::Model;
use thiserror::Error;

/// The text is not a digest: not `sha256:` and 64 digits of `0-9a-f`.
#[derive(Clone, Copy, Debug, PartialEq, Eq, Error)]
#[error("a digest is sha256: and 64 digits of 0-9a-f")]
pub struct BadDigest;

/// The SHA-256 digest of an image or a layer, after the OCI image specification. Contracts see it as
/// its 32 bytes, and digests are ordered by them.
#[derive(Clone, Copy, Debug, PartialEq, Eq, PartialOrd, Ord)]
pub struct Digest {
    inner: [u8; 32],
}

impl Model for Digest {
    ghost use Rattle.std.specs.Prelude.{ℕ, List};

    ghost Value = { List ℕ };

    ghost view = { λ d. d.inner };

    ghost inverse = { λ d. record { inner = d } };
}

impl Digest {
    /// The digest of these 32 bytes.
    pub fn of(bytes: [u8; 32]) -> Digest
        ensures { result ≡ bytes }
    {
        Digest { inner: bytes }
    }

    /// The 32 bytes.
    pub fn bytes(&self) -> [u8; 32]
        ensures { result ≡ self.now }
    {
        self.inner
    }

    /// Reads `sha256:` and 64 digits of `0-9a-f`. Every other text is refused.
    pub fn read(text: &[u8]) -> Result<Digest, BadDigest>
        ensures { MatchResult result (λ d. digest_of text.now ≡ Some d) (λ _. digest_of text.now ≡ None) }
    {
        let Some(digits) = digits_of(text) else {
            return Err(BadDigest);
        };
        match decoded(digits) {
            Some(inner) => Ok(Digest { inner }),
            None => Err(BadDigest),
        }
    }

    /// `sha256:` and the 64 digits.
    pub fn text(&self, alloc: Global) -> Result<Text, NoMemory>
        ensures { IfOk result (λ text. text ≡ digest_text self.now) }
    {
        let mut text = String::from_str(alloc, "sha256:")?;
        text.push_str(hex::encode(alloc, self.inner)?.as_str())?;
        Text::of(alloc, text.as_str())
    }
}

/// `Digest::read` accepts exactly the texts that `Digest::text` gives: the text of any 32 bytes reads as them, `read_back`,
/// and a text that reads as bytes is the text of them, `written_back`.
pub fn digest_round_trip()
    ensures read_back { (bytes : List ℕ) → length bytes ≡ 32 → IsBytes bytes → digest_of (digest_text bytes) ≡ Some bytes }
    ensures written_back { (text bytes : List ℕ) → digest_of text ≡ Some bytes → digest_text bytes ≡ text }
{}

/// The encoded part of a text, if the algorithm is SHA-256 and there are digits alone.
fn digits_of(text: &[u8]) -> Option<&[u8]>
    ensures { option_map (λ digits. digits.now) result ≡ digits_of text.now }
{
    let digits = text.strip_prefix(b"sha256:")?;
    if are_lower_digits(digits) {
        Some(digits)
    } else {
        None
    }
}

/// The bytes that 64 digits spell.
fn decoded(digits: &[u8]) -> Option<[u8; 32]>
    ensures { result ≡ result_ok (decode_sized digits.now 32) }
{
    <[u8; 32] as FromHex>::from_hex(digits).ok()
}

fn are_lower_digits(text: &[u8]) -> bool
    ensures { result ≡ list_all is_lower_digit text.now }
{
    text.iter().all(|byte| is_lower_digit(*byte))
}

/// Whether a byte is a digit of `0-9a-f`.
fn is_lower_digit(byte: u8) -> bool
    ensures { result ≡ is_lower_digit byte }
{
    byte.is_ascii_digit() || (b'a'..=b'f').contains(&byte)
}
