ghost use Rattle.std.specs.Prelude.{◌≡◌, map, string_bytes, IfOk, OnErr, OnOk};
ghost use Rattle.std.specs.Io.KnownBytes.{Appends};
ghost use Rattle.std.specs.List.{AllByRecursion, flat_map};
ghost use Rattle.cv_seq.specs.Cause.{CausedBy};
ghost use Rattle.cv_io.specs.Fault.{is_write_fault};
ghost use Rattle.cv_io.specs.Writes.{AppendsPrefix};
ghost use Rattle.cv_transcript.specs.Entry.{entry_text};
ghost use Rattle.cv_serve_round.specs.Printed.{HasTag};

use cv_base::NoMemory;
use cv_io::{Sink, WriteError, write_all};
use cv_transcript::{Entry, entry_line};
use std::alloc::Global;

/// The lines of entries. All are made before the first one is written.
pub fn lines_of(alloc: Global, entries: &[Entry]) -> Result<Vec<String>, NoMemory>
    ensures text { IfOk result (λ lines. map (λ line. string_bytes line) lines.items ≡ map (λ entry. entry_text entry) entries.now) }
    ensures tags { OnOk result (AllByRecursion HasTag entries.now) }
{
    let mut lines = Vec::new(alloc);
    for entry in entries {
        lines.push(entry_line(alloc, entry)?)?;
    }
    Ok(lines)
}

/// Writes lines, each as one piece. After an `Err` it wrote some of them, and a front part of the next one.
pub fn write_lines<K: Sink>(output: &mut K, lines: &[String]) -> Result<(), WriteError>
    ensures ok { OnOk result (Appends (K.contents output.old) (K.contents output.new) (flat_map (λ line. string_bytes line) lines.now)) }
    ensures err { OnErr result (AppendsPrefix (K.contents output.old) (K.contents output.new) (flat_map (λ line. string_bytes line) lines.now)) }
    ensures cause { CausedBy (K.faults output.old) (K.faults output.new) (is_write_fault result) }
{
    for line in lines {
        write_all(output, line.as_bytes())?;
    }
    Ok(())
}
