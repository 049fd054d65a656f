ghost use Rattle.std.specs.Prelude.{◌≡◌, min, length, take};

/// Copies the first bytes, at most `piece` of them, into the front of `buf`, and returns how many.
pub fn copy_front(from: &[u8], piece: usize, buf: &mut [u8]) -> usize
    ensures count { result ≡ min (min (length from.now) piece) (length buf.old) }
    ensures copied { take result buf.new ≡ take result from.now }
{
    let count = from.len().min(piece).min(buf.len());
    buf[..count].copy_from_slice(&from[..count]);
    count
}
