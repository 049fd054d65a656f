ghost use Rattle.std.specs.Prelude.{◌≡◌, IfErr, IfOk};
ghost use Rattle.std.specs.Process.{exit_status};
ghost use Rattle.cv_command.specs.Status.{status_code};

use std::process::ExitCode;

/// How a command ended. A service prints each round as it ends, so that an end before the end of its input leaves those rounds
/// printed; a scan prints one line, and so do `sbom` and `scan-list`, of which the same holds.
#[derive(Clone, Copy, Debug, PartialEq, Eq)]
pub enum Status {
    /// All was printed: the findings, also if there are none, the transcript, the summary of one, or how two versions compare.
    Done,
    /// The arguments are not a command, or ask for more workers than there are desks; the usage line was printed.
    Usage,
    /// Reading the input failed. A scan printed nothing.
    ReadFault,
    /// Writing failed; a front part of what was to be written may have been written.
    WriteFault,
    /// The command ran out of memory; nothing was printed, or a front part, or all of it.
    NoMemory,
    /// A line is over its limit. A scan printed nothing, and none of the lines before it is refused.
    LineTooLong,
    /// The input has 2^36 bytes or more. A scan printed nothing, and none of its lines before that is refused.
    InputTooLong,
    /// A scan's input has no line, one of its lines or the image was refused, or a text is not a valid version; the line that says
    /// so was printed.
    Refused,
    /// A `desk_fault` line of a scan was printed, or a layer of the kept events could not be read.
    DeskFault,
    /// The file of a kept service could not be read or written. The record of the last round may be in it or not, and its lines were
    /// not printed.
    KeepFault,
    /// A record of the file of a kept service is not good; the line that says which one was printed.
    BadKeep,
    /// The file of a kept service would pass 2^40 bytes with the record of the last round, whose lines were not printed.
    KeepFull,
}

impl Status {
    /// The number of the exit status.
    pub fn code(self) -> u8
        ensures { result ≡ status_code self }
    {
        match self {
            Status::Done => 0,
            Status::Usage => 2,
            Status::ReadFault => 3,
            Status::WriteFault => 4,
            Status::NoMemory => 5,
            Status::LineTooLong => 6,
            Status::InputTooLong => 7,
            Status::Refused => 8,
            Status::DeskFault => 9,
            Status::KeepFault => 10,
            Status::BadKeep => 11,
            Status::KeepFull => 12,
        }
    }

    /// The exit code of the program.
    pub fn exit_code(self) -> ExitCode
        ensures { exit_status result ≡ status_code self }
    {
        ExitCode::from(self.code())
    }

    /// The exit code of a program whose command ended with this status, or that of out of memory if no command could be started.
    pub fn exit_code_of<E: Drop>(ended: Result<Status, E>) -> ExitCode
        ensures ended { IfOk ended (λ status. exit_status result ≡ status_code status) }
        ensures not_started { IfErr ended (λ error. exit_status result ≡ status_code Status.NoMemory) }
    {
        ended.unwrap_or(Status::NoMemory).exit_code()
    }
}
