ghost use Rattle.std.specs.Prelude.{◌≡◌};
ghost use Rattle.cv_serve_kept.specs.code.Stops.{end_of, stop_end};
ghost use Rattle.cv_serve_kept.specs.declared.stop.Stop.TheVariants as stop;

use crate::end::KeptEnd;
use cv_base::NoMemory;
use cv_io::WriteError;
use cv_keep::KeepError;
use cv_serve::ServeEnd;

/// Why a kept service did not come to its end.
#[derive(Clone, Copy, Debug, PartialEq, Eq)]
pub enum Stop {
    /// Its file stopped it.
    Keep(KeepError),
    /// The first desk failed at a layer of the kept events.
    Desk,
    /// A record of its file is not good.
    BadKeep,
    /// Its output was not written.
    Output(WriteError),
    NoMemory,
}

/// The end of a service that came to its end, or was stopped.
pub fn end_of(ended: Result<ServeEnd, Stop>) -> KeptEnd
    ensures { result ≡ end_of ended }
{
    match ended {
        Ok(end) => KeptEnd::Served(end),
        Err(stop) => stop_end(stop),
    }
}

/// The end of a service that was stopped.
fn stop_end(stop: Stop) -> KeptEnd
    ensures { result ≡ stop_end stop }
{
    match stop {
        Stop::Keep(KeepError::DiskFault) => KeptEnd::KeepFault,
        Stop::Keep(KeepError::Full) => KeptEnd::KeepFull,
        Stop::Desk => KeptEnd::DeskFault,
        Stop::BadKeep => KeptEnd::BadKeep,
        Stop::Output(WriteError::WriteFault) => KeptEnd::Served(ServeEnd::WriteFault),
        Stop::Keep(KeepError::NoMemory) | Stop::Output(WriteError::NoMemory) | Stop::NoMemory => {
            KeptEnd::Served(ServeEnd::NoMemory)
        }
    }
}

impl From<KeepError> for Stop {
    ghost from_gives = { λ error e. e ≡ stop.Keep error };

    fn from(error: KeepError) -> Stop {
        Stop::Keep(error)
    }
}

impl From<WriteError> for Stop {
    ghost from_gives = { λ error e. e ≡ stop.Output error };

    fn from(error: WriteError) -> Stop {
        Stop::Output(error)
    }
}

impl From<NoMemory> for Stop {
    ghost from_gives = { λ _ e. e ≡ stop.NoMemory };

    fn from(_error: NoMemory) -> Stop {
        Stop::NoMemory
    }
}
