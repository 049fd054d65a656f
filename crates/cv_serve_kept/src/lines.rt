ghost use Rattle.std.specs.Prelude.{◌≡◌, IfOk, OnOk, OnErr, codes, string_bytes};
ghost use Rattle.std.specs.Io.KnownBytes.{Appends};
ghost use Rattle.serde_json.specs.View.{view};
ghost use Rattle.cv_seq.specs.Cause.{CausedBy};
ghost use Rattle.cv_io.specs.Fault.{is_write_fault};
ghost use Rattle.cv_io.specs.Writes.{AppendsPrefix};
ghost use Rattle.cv_serve_kept.specs.Lines.{bad_keep_data, bad_keep_text, resumed_data, resumed_text};

use cv_base::NoMemory;
use cv_io::{Sink, WriteError, write_all};
use cv_scan_output::line_of;
use serde_json::{Value, json};
use std::alloc::Global;

/// Writes that the service goes on after this many events, and in this generation.
pub fn write_resumed<K: Sink>(
    alloc: Global,
    output: &mut K,
    events: u64,
    generation: u64,
) -> Result<(), WriteError>
    ensures ok { OnOk result (Appends (K.contents output.old) (K.contents output.new) (resumed_text events generation)) }
    ensures err { OnErr result (AppendsPrefix (K.contents output.old) (K.contents output.new) (resumed_text events generation)) }
    ensures cause { CausedBy (K.faults output.old) (K.faults output.new) (is_write_fault result) }
{
    let line = resumed_line(alloc, events, generation)?;
    write_all(output, line.as_bytes())
}

/// Writes that the record of this number, from 0, is bad.
pub fn write_bad_keep<K: Sink>(alloc: Global, output: &mut K, place: u64) -> Result<(), WriteError>
    ensures ok { OnOk result (Appends (K.contents output.old) (K.contents output.new) (bad_keep_text place)) }
    ensures err { OnErr result (AppendsPrefix (K.contents output.old) (K.contents output.new) (bad_keep_text place)) }
    ensures cause { CausedBy (K.faults output.old) (K.faults output.new) (is_write_fault result) }
{
    let line = bad_keep_line(alloc, place)?;
    write_all(output, line.as_bytes())
}

#[tactic(auto, unfolding(crate::specs::Lines::resumed_text))]
fn resumed_line(alloc: Global, events: u64, generation: u64) -> Result<String, NoMemory>
    ensures { IfOk result (λ line. string_bytes line ≡ resumed_text events generation) }
{
    let value = resumed_value(alloc, events, generation)?;
    line_of(alloc, &value)
}

fn resumed_value(alloc: Global, events: u64, generation: u64) -> Result<Value, NoMemory>
    ensures { IfOk result (λ value. view value ≡ resumed_data events generation) }
{
    Ok(json!(in alloc; {"events": events, "generation": generation, "reply": "resumed"})?)
}

#[tactic(auto, unfolding(crate::specs::Lines::bad_keep_text))]
fn bad_keep_line(alloc: Global, place: u64) -> Result<String, NoMemory>
    ensures { IfOk result (λ line. string_bytes line ≡ bad_keep_text place) }
{
    let value = bad_keep_value(alloc, place)?;
    line_of(alloc, &value)
}

fn bad_keep_value(alloc: Global, place: u64) -> Result<Value, NoMemory>
    ensures { IfOk result (λ value. view value ≡ bad_keep_data place) }
{
    Ok(json!(in alloc; {"record": place, "refused": "bad_keep"})?)
}
