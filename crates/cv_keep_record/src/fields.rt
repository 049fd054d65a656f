ghost use Rattle.std.specs.Prelude.{◌≡◌, option_map};
ghost use Rattle.std.specs.Int.{w32, w64};
ghost use Rattle.cv_keep_record.specs.code.Reading.{byte_at, front_at, kind_of, number_at, text_at};

use crate::event::WorkKind;

/// One byte, and the bytes after it.
pub(crate) fn byte_at(bytes: &[u8]) -> Option<(u8, &[u8])>
    ensures { option_map (λ x. (x.0, x.1.now)) result ≡ byte_at bytes.now }
{
    match bytes {
        [byte, rest @ ..] => Some((*byte, rest)),
        [] => None,
    }
}

/// A number of four bytes, and the bytes after it.
pub(crate) fn u32_at(bytes: &[u8]) -> Option<(u32, &[u8])>
    ensures { option_map (λ x. (x.0, x.1.now)) result ≡ number_at w32 bytes.now }
{
    if bytes.len() < 4 {
        return None;
    }
    let (front, rest) = bytes.split_at(4);
    let mut number = [0u8; 4];
    number.copy_from_slice(front);
    Some((u32::from_be_bytes(number), rest))
}

/// A number of eight bytes, and the bytes after it.
pub(crate) fn u64_at(bytes: &[u8]) -> Option<(u64, &[u8])>
    ensures { option_map (λ x. (x.0, x.1.now)) result ≡ number_at w64 bytes.now }
{
    if bytes.len() < 8 {
        return None;
    }
    let (front, rest) = bytes.split_at(8);
    let mut number = [0u8; 8];
    number.copy_from_slice(front);
    Some((u64::from_be_bytes(number), rest))
}

/// A length of four bytes and that many bytes, and the bytes after them.
#[tactic(auto, unfolding(crate::specs::code::Reading::text_at))]
pub(crate) fn text_at(bytes: &[u8]) -> Option<(&[u8], &[u8])>
    ensures { option_map (λ x. (x.0.now, x.1.now)) result ≡ text_at bytes.now }
{
    let (len, rest) = u32_at(bytes)?;
    let len = len as usize;
    if rest.len() < len {
        return None;
    }
    Some(rest.split_at(len))
}

/// The 32 bytes of a digest, and the bytes after them.
pub(crate) fn digest_at(bytes: &[u8]) -> Option<([u8; 32], &[u8])>
    ensures { option_map (λ x. (x.0, x.1.now)) result ≡ front_at 32 bytes.now }
{
    if bytes.len() < 32 {
        return None;
    }
    let (front, rest) = bytes.split_at(32);
    let mut digest = [0u8; 32];
    digest.copy_from_slice(front);
    Some((digest, rest))
}

/// What a worker did, by its byte.
pub(crate) fn kind_of(byte: u8) -> Option<WorkKind>
    ensures { result ≡ kind_of byte }
{
    match byte {
        0 => Some(WorkKind::Claim),
        1 => Some(WorkKind::Indexed),
        2 => Some(WorkKind::Fault),
        3 => Some(WorkKind::Memory),
        _ => None,
    }
}
