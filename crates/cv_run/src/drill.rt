ghost use Rattle.std.specs.Prelude.{◌≡◌, ◌++◌, ◌∷◌, [], ◌+◌, ◌^◌, ◌<◌, ◌≤◌, length, string_bytes, All, IfErr, IfOk};
ghost use Rattle.cv_seq.specs.Cause.{Rose};
ghost use Rattle.cv_drill.specs.Script.{script};
ghost use Rattle.cv_drill.specs.Summary.{summary};
ghost use Rattle.cv_run.specs.Drill.{DrillEnds, IsDrilled};
ghost use Rattle.cv_run.specs.code.Drilled.{SummaryPrinted};

use crate::service::status_of;
use cv_base::{NoMemory, Seq};
use cv_command::{Status, print};
use cv_desk::Desk;
use cv_desk_drill::GenDesk;
use cv_drill::{script, summary};
use cv_io::{CalmSink, CalmSource, Sink};
use cv_serve::{ServeEnd, serve};
use std::alloc::Global;
use std::sync::Wait;
use std::thread::Threads;

/// How many workers a drill has, and how many desks.
const WORKERS: u32 = 4;

/// The most bytes that are read or written at once.
const PIECE: usize = 65_536;

/// Serves the script of a seed over generated layers, and prints a summary of the transcript.
pub fn drill_command<K: Sink, W: Threads + Wait + Sync>(
    rt: &W,
    alloc: Global,
    seed: u32,
    output: &mut K,
) -> Status
    ensures outcome { DrillEnds seed (K.contents output.old) (K.contents output.new) result }
    ensures write_fault { result ≡ Status.WriteFault → Rose (K.faults output.old) (K.faults output.new) }
{
    match transcript_of(rt, alloc, seed) {
        Ok(transcript) => print_summary(alloc, seed, transcript.bytes(), output),
        Err(status) => status,
    }
}

/// The transcript of the script of a seed, or how the service ended that has none.
fn transcript_of<W: Threads + Wait + Sync>(
    rt: &W,
    alloc: Global,
    seed: u32,
) -> Result<CalmSink, Status>
    ensures ok { IfOk result (λ transcript. IsDrilled seed transcript.bytes) }
    ensures err { IfErr result (λ status. status ≡ Status.NoMemory) }
{
    let Ok(script) = script(alloc, seed) else {
        return Err(Status::NoMemory);
    };
    let Ok(mut desks) = make_desks(alloc) else {
        return Err(Status::NoMemory);
    };
    serve_script(rt, alloc, seed, script, &mut desks)
}

/// Serves the script of a seed.
fn serve_script<W: Threads + Wait + Sync>(
    rt: &W,
    alloc: Global,
    seed: u32,
    bytes: Seq<u8>,
    desks: &mut Vec<GenDesk>,
) -> Result<CalmSink, Status>
    requires script { bytes ≡ script seed }
    requires short { length bytes ≤ 2 ^ 26 }
    requires four { length desks.old.items ≡ 4 }
    requires room { All (λ desk. ⟦<GenDesk as Desk>⟧.listings desk < 2 ^ 62) desks.old.items }
    ensures ok { IfOk result (λ transcript. IsDrilled seed transcript.bytes) }
    ensures err { IfErr result (λ status. status ≡ Status.NoMemory) }
{
    let mut input = CalmSource::new(bytes, PIECE);
    let mut output = CalmSink::new(alloc, PIECE);
    match serve(rt, alloc, &mut input, &mut output, desks, WORKERS) {
        ServeEnd::Done => Ok(output),
        end => Err(status_of(end)),
    }
}

/// A desk over the generated layers for each worker.
fn make_desks(alloc: Global) -> Result<Vec<GenDesk>, NoMemory>
    ensures count { IfOk result (λ desks. length desks.items ≡ 4) }
    ensures fresh { IfOk result (λ desks. All (λ desk. ⟦<GenDesk as Desk>⟧.listings desk < 2 ^ 62) desks.items) }
{
    Ok(vec![in alloc;
        GenDesk::new(),
        GenDesk::new(),
        GenDesk::new(),
        GenDesk::new(),
    ]?)
}

/// Prints the summary of a transcript.
fn print_summary<K: Sink>(alloc: Global, seed: u32, transcript: &[u8], output: &mut K) -> Status
    ensures printed { SummaryPrinted seed transcript.now (K.contents output.old) (K.contents output.new) result }
    ensures write_fault { result ≡ Status.WriteFault → Rose (K.faults output.old) (K.faults output.new) }
{
    match summary_line(alloc, seed, transcript) {
        Ok(line) => print(output, line.as_str(), Status::Done),
        Err(NoMemory) => Status::NoMemory,
    }
}

fn summary_line(alloc: Global, seed: u32, transcript: &[u8]) -> Result<String, NoMemory>
    ensures { IfOk result (λ line. string_bytes line ≡ summary seed transcript.now ++ 10 ∷ []) }
{
    let summary = summary(alloc, seed, transcript)?;
    let summary = summary.as_str();
    Ok(format!(in alloc; "{summary}\n")?)
}
