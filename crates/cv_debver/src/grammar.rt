ghost use Rattle.std.specs.Prelude.{◌≡◌, ◌↔◌, IsTrue};
ghost use Rattle.std.specs.List.{list_all};
ghost use Rattle.cv_order.specs.Digits.{is_digit};
ghost use Rattle.cv_debver.specs.Grammar.{IsVersion, is_revision_byte, is_upstream_byte, is_version, one_or_more};

use crate::version::split;
use cv_order::are_digits;

/// Whether the text is a version: `[epoch:]upstream[-revision]`. The epoch comes before the first colon, and the revision
/// after the last hyphen. A text with a colon in its upstream version is not a version.
pub fn is_version(text: &[u8]) -> bool
    ensures value { result ≡ is_version text.now }
    ensures grammar { IsTrue result ↔ IsVersion text.now }
{
    has_version_parts(text)
}

fn has_version_parts(text: &[u8]) -> bool
    ensures { result ≡ is_version text.now }
{
    let parts = split(text);
    is_epoch(parts.epoch) && is_upstream(parts.upstream) && is_revision(parts.revision)
}

fn is_epoch(text: &[u8]) -> bool
    ensures { result ≡ one_or_more is_digit text.now }
{
    !text.is_empty() && are_digits(text)
}

fn is_upstream(text: &[u8]) -> bool
    ensures { result ≡ one_or_more is_upstream_byte text.now }
{
    !text.is_empty() && are_upstream_bytes(text)
}

fn is_revision(text: &[u8]) -> bool
    ensures { result ≡ one_or_more is_revision_byte text.now }
{
    !text.is_empty() && are_revision_bytes(text)
}

fn are_upstream_bytes(bytes: &[u8]) -> bool
    ensures { result ≡ list_all is_upstream_byte bytes.now }
{
    bytes
        .iter()
        .all(|&byte| byte == b'-' || is_revision_byte(byte))
}

fn are_revision_bytes(bytes: &[u8]) -> bool
    ensures { result ≡ list_all is_revision_byte bytes.now }
{
    bytes.iter().all(|&byte| is_revision_byte(byte))
}

fn is_revision_byte(byte: u8) -> bool
    ensures { result ≡ is_revision_byte byte }
{
    byte.is_ascii_alphanumeric() || matches!(byte, b'.' | b'+' | b'~')
}
