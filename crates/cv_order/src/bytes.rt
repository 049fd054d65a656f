ghost use Rattle.std.specs.Prelude.{◌≡◌, ◌<◌, ◌==◌, IfSome, length};
ghost use Rattle.std.specs.List.{position};

/// The index of the first of these bytes.
pub fn find(bytes: &[u8], byte: u8) -> Option<usize>
    ensures place { result ≡ position (λ x. x == byte) bytes.now }
    ensures bound { IfSome result (λ place. place < length bytes.now) }
{
    bytes.iter().position(|x| *x == byte)
}
