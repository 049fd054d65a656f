ghost use Rattle.std.specs.Prelude.{◌≡◌, ℕ, List, [], None};
ghost use Rattle.cv_seq.specs.Cause.{CausedBy};
ghost use Rattle.cv_keep.specs.Fault.{is_failed};

use crate::disk::Disk;
use crate::fault::DiskFault;
use std::fs::{File, OpenOptions, TryLockError};
use std::io::{self, ErrorKind};
use std::os::unix::fs::FileExt;

/// The file, in the working directory.
pub const FILE: &str = "cvwatch.keep";

/// The file `./cvwatch.keep`. The first call opens or makes it, brings its name to the disk, and locks it until this value is
/// dropped or the process ends; a file that another process has locked is a fault. Neither its bytes nor what a crash may leave
/// is known. Each error is counted, and the last one kept.
#[derive(Drop)]
pub struct FileDisk {
    rt: HostRuntime,
    file: Option<File>,
    faults: u64,
    last_error: Option<io::Error>,
}

impl FileDisk {
    /// A disk whose file is not open yet.
    pub fn new(rt: HostRuntime) -> FileDisk
        ensures { ⟦<FileDisk as Disk>⟧.faults result ≡ 0 }
    {
        FileDisk {
            rt,
            file: None,
            faults: 0,
            last_error: None,
        }
    }

    /// Why the last call that failed did so, as the system says. It is meant for people.
    pub fn last_error(&self) -> Option<io::Error> {
        self.last_error
    }

    /// A call's answer; an error is counted and kept.
    fn counted<X>(&mut self, done: io::Result<X>) -> Result<X, DiskFault>
        ensures { CausedBy self.old.faults self.new.faults (is_failed result) }
    {
        match done {
            Ok(found) => Ok(found),
            Err(error) => {
                self.faults = self.faults.saturating_add(1);
                self.last_error = Some(error);
                Err(DiskFault::Failed)
            }
        }
    }
}

/// Opens the file, or makes it, brings its name to the disk, and locks it.
fn open(rt: &HostRuntime) -> io::Result<File> {
    let file = OpenOptions::new()
        .read(true)
        .write(true)
        .create(true)
        .open(rt, FILE)?;
    File::open(rt, ".")?.sync_all()?;
    match file.try_lock() {
        Ok(()) => Ok(file),
        Err(TryLockError::WouldBlock) => Err(io::Error::from(ErrorKind::WouldBlock)),
        Err(TryLockError::Error(error)) => Err(error),
    }
}

/// The open file; the first call opens it.
fn opened<'a>(rt: &HostRuntime, file: &'a mut Option<File>) -> io::Result<&'a File> {
    if file.is_none() {
        *file = Some(open(rt)?);
    }
    match file {
        Some(file) => Ok(file),
        None => Err(io::Error::from(ErrorKind::NotFound)),
    }
}

impl Disk for FileDisk {
    ghost contents = { λ d. None };

    ghost moment = { λ d. 0 };

    ghost may_leave = { λ d t image. ⊥ };

    ghost syncs = { λ d. [] };

    ghost faults = { λ d. d.faults };

    ghost earlier = { λ d t u image le left. left };

    ghost reads = { λ d. tt };

    fn len(&mut self) -> Result<u64, DiskFault> {
        let found = length(&self.rt, &mut self.file);
        self.counted(found)
    }

    fn read(&mut self, at: u64, buf: &mut [u8]) -> Result<(), DiskFault> {
        let done = read(&self.rt, &mut self.file, at, buf);
        self.counted(done)
    }

    fn write_at(&mut self, at: u64, bytes: &[u8]) -> Result<(), DiskFault> {
        let done = write(&self.rt, &mut self.file, at, bytes);
        self.counted(done)
    }

    fn cut(&mut self, len: u64) -> Result<(), DiskFault> {
        let done = cut(&self.rt, &mut self.file, len);
        self.counted(done)
    }

    fn sync(&mut self) -> Result<(), DiskFault> {
        let done = sync(&self.rt, &mut self.file);
        self.counted(done)
    }
}

fn length(rt: &HostRuntime, file: &mut Option<File>) -> io::Result<u64> {
    Ok(opened(rt, file)?.metadata()?.len())
}

fn read(rt: &HostRuntime, file: &mut Option<File>, at: u64, buf: &mut [u8]) -> io::Result<()> {
    opened(rt, file)?.read_exact_at(buf, at)
}

fn write(rt: &HostRuntime, file: &mut Option<File>, at: u64, bytes: &[u8]) -> io::Result<()> {
    opened(rt, file)?.write_all_at(bytes, at)
}

fn cut(rt: &HostRuntime, file: &mut Option<File>, len: u64) -> io::Result<()> {
    opened(rt, file)?.set_len(len)
}

fn sync(rt: &HostRuntime, file: &mut Option<File>) -> io::Result<()> {
    opened(rt, file)?.sync_all()
}
