ghost use Rattle.std.specs.Prelude.{◌≡◌, ◌≤◌, ℕ, take, length, OnOk, OnErr};
ghost use Rattle.std.specs.Io.KnownBytes.{Appends};
ghost use Rattle.cv_seq.specs.Cause.{CausedBy};
ghost use Rattle.cv_io.specs.Fault.{is_write_fault};
ghost use Rattle.cv_io.specs.Writes.{AppendsPrefix};
ghost use Rattle.cv_io.specs.code.Errors.{write_error};
ghost use Rattle.cv_io.specs.declared.write.WriteError.TheVariants as error;

use crate::fault::IoFault;
use crate::sink::Sink;
use cv_seq::NoMemory;
use thiserror::Error;

/// Why bytes were not written whole.
#[derive(Clone, Copy, Debug, PartialEq, Eq, Error)]
pub enum WriteError {
    #[error("the output could not be written")]
    WriteFault,
    #[error("out of memory")]
    NoMemory,
}

/// Appends all the bytes, whatever pieces the sink takes. After an `Err` it appended a front part of them.
pub fn write_all<K: Sink>(output: &mut K, bytes: &[u8]) -> Result<(), WriteError>
    ensures ok { OnOk result (Appends (K.contents output.old) (K.contents output.new) bytes.now) }
    ensures err { OnErr result (AppendsPrefix (K.contents output.old) (K.contents output.new) bytes.now) }
    ensures cause { CausedBy (K.faults output.old) (K.faults output.new) (is_write_fault result) }
{
    let mut at = 0;
    while at < bytes.len() {
        let (_, rest) = bytes.split_at(at);
        match output.write(rest) {
            Ok(count) => at += count,
            Err(fault) => return Err(write_error(fault)),
        }
    }
    Ok(())
}

/// The error of a whole write of which one write was not made.
fn write_error(fault: IoFault) -> WriteError
    ensures { result ≡ write_error fault }
{
    match fault {
        IoFault::Failed => WriteError::WriteFault,
        IoFault::NoMemory => WriteError::NoMemory,
    }
}

impl From<NoMemory> for WriteError {
    ghost from_gives = { λ _ e. e ≡ error.NoMemory };

    fn from(_error: NoMemory) -> WriteError {
        WriteError::NoMemory
    }
}
