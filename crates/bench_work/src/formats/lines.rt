ghost use Rattle.std.specs.Prelude.{◌^◌, IfSome};
ghost use Rattle.cv_seq.specs.Cause.{CausedBy};
ghost use Rattle.cv_io.specs.Fault.{is_read_fault};
ghost use Rattle.cv_io.specs.Lines.{reading_of};
ghost use Rattle.cv_scan_input.specs.declared.input.TheConstants.{MAX_INPUT, MAX_LINE};
ghost use Rattle.bench_work.specs.Lines.{IsCountOf};

use cv_base::NoMemory;
use cv_io::{Line, LineError, LineReader, Source, StdSource};
use cv_scan_input::{MAX_INPUT, MAX_LINE};
use std::alloc::Global;
use std::io::Read;

/// The lines of a stream. One that cannot be read has none.
pub fn lines_in<R: Read + Drop>(alloc: Global, stream: R) -> Result<u64, NoMemory> {
    count_of(count_lines(alloc, &mut StdSource::new(stream)))
}

/// The count of a stream, of which nothing counts if it cannot be read.
pub fn count_of(counted: Result<u64, LineError>) -> Result<u64, NoMemory> {
    match counted {
        Ok(count) => Ok(count),
        Err(LineError::NoMemory) => Err(NoMemory),
        Err(LineError::ReadFault | LineError::LineTooLong | LineError::InputTooLong) => Ok(0),
    }
}

/// Reads the input to its end, and counts its lines.
#[tactic(auto, using(crate::proofs::Remaining::remaining_first, crate::proofs::Remaining::remaining_more))]
pub fn count_lines<S: Source>(alloc: Global, input: &mut S) -> Result<u64, LineError>
    ensures count { IfSome (S.remaining input.old) (λ bytes. IsCountOf (reading_of MAX_LINE MAX_INPUT bytes) result) }
    ensures cause { CausedBy (S.faults input.old) (S.faults input.new) (is_read_fault result) }
{
    let mut reader = LineReader::new(alloc, MAX_LINE, MAX_INPUT)?;
    let mut lines = 0;
    while let Line::Text(_text) = reader.next(alloc, input)? {
        lines += 1;
    }
    Ok(lines)
}
