ghost use Rattle.std.specs.Prelude.{◌≡◌, ℕ, false, length, option_map, List, Option};
ghost use Rattle.cv_seq.specs.Cause.{CausedBy, Rose};
ghost use Rattle.cv_core_machine.specs.Scans.{trees_of};
ghost use Rattle.cv_keep.specs.Journal.{Belongs};
ghost use Rattle.cv_keep.specs.Records.{records};
ghost use Rattle.cv_serve_round.specs.Begun.{IsPrepared};
ghost use Rattle.cv_serve_round.specs.Round.{moment_of};
ghost use Rattle.cv_serve_kept.specs.Ends.{KeptEnds, ReadsInput};
ghost use Rattle.cv_serve_kept.specs.Start.{IsResumed};
ghost use Rattle.cv_serve_kept.specs.code.Stops.{end_of, is_desk_stop, is_keep_stop};

use crate::end::KeptEnd;
use crate::stop::Stop;
use cv_desk::Desk;
use cv_io::{Sink, Source};
use cv_keep::{Disk, Journal};
use cv_keep_rounds::KeepRounds;
use cv_serve::{ServeEnd, serve_from};
use cv_serve_round::{Identity, Service};
use std::alloc::Global;
use std::sync::Wait;
use std::thread::Threads;

/// Serves after the kept events, and keeps each round. Why a round was not kept is looked at first.
pub fn serve_rounds<
    S: Source,
    K: Sink,
    J: Disk,
    D: Desk + Drop + Send + Sync,
    L: Identity + Send + Sync,
    W: Threads + Wait + Sync,
>(
    rt: &W,
    alloc: Global,
    service: &mut Service<D, L>,
    journal: Journal,
    input: &mut S,
    output: &mut K,
    disk: &mut J,
    desks: &mut [D],
) -> Result<ServeEnd, Stop>
    requires sound { journal.failed ≡ false }
    requires belongs { Belongs J.contents J.moment J.may_leave journal disk.old }
    requires prepared { IsPrepared D.listings L.parts service.old.hub service.old.seats.items desks.old }
    ensures outcome { (written : Option (List ℕ)) (desks_first : List D) → IsResumed D.tree D.listings D.faults (option_map records (J.contents disk.old)) (moment_of (trees_of D.tree) L.limits service.old.hub)
        written (K.contents output.old) desks_first desks.old
        → KeptEnds D.tree (length desks.old) D.listings D.faults
        (record { remaining = S.remaining input.old; written = written; kept = option_map records (J.contents disk.old); desks = desks_first })
        (record { remaining = S.remaining input.new; written = K.contents output.new; kept = option_map records (J.contents disk.new); desks = desks.new })
        (end_of result) }
    ensures reads { ReadsInput (S.remaining input.old) (S.remaining input.new) (end_of result) }
    ensures read_fault { end_of result ≡ KeptEnd.Served ServeEnd.ReadFault → Rose (S.faults input.old) (S.faults input.new) }
    ensures write_fault { end_of result ≡ KeptEnd.Served ServeEnd.WriteFault → Rose (K.faults output.old) (K.faults output.new) }
    ensures keep_cause { CausedBy (J.faults disk.old) (J.faults disk.new) (is_keep_stop result) }
    ensures no_desk { is_desk_stop result ≡ false }
{
    let mut keeper = KeepRounds::new(journal);
    let end = serve_from(rt, alloc, service, desks, input, output, &mut keeper, disk);
    match keeper.error() {
        Some(error) => Err(Stop::Keep(error)),
        None => Ok(end),
    }
}
