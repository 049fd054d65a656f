//! Calls of the system that signals interrupt.
ghost use Rattle.std.specs.Prelude.{◌≡◌, ◌↔◌, IsErrAnd, IsTrue};
ghost use Rattle.std.specs.IoError.{error_kind};

use std::io::{self, ErrorKind};

/// The most times that a call is made which signals interrupt.
pub const MOST_TRIES: u32 = 100;

/// Whether a signal interrupted the call.
pub fn is_interrupted<X>(answer: &io::Result<X>) -> bool
    ensures { IsTrue result ↔ IsErrAnd answer.now (λ error. error_kind error ≡ ErrorKind.Interrupted) }
{
    match answer {
        Ok(_) => false,
        Err(error) => error.kind() == ErrorKind::Interrupted,
    }
}

/// The error of a call that signals interrupted each time.
pub fn too_many_signals() -> io::Error
    ensures { error_kind result ≡ ErrorKind.TimedOut }
{
    io::Error::new(
        ErrorKind::TimedOut,
        "signals interrupted the call each time",
    )
}
