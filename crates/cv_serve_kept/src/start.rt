ghost use Rattle.std.specs.Prelude.{◌≡◌, ℕ, [], ◌≤◌, ◌<◌, ◌^◌, false, true, length, option_map, List, Option, Err, IfErr, OnOk};
ghost use Rattle.std.specs.List.{AllByRecursion};
ghost use Rattle.cv_seq.specs.Cause.{CausedBy};
ghost use Rattle.cv_core_machine.specs.Scans.{trees_of};
ghost use Rattle.cv_hub.specs.Seats.{AreFresh};
ghost use Rattle.cv_keep.specs.Journal.{Belongs};
ghost use Rattle.cv_keep.specs.Records.{records};
ghost use Rattle.cv_serve_round.specs.Begun.{IsPrepared};
ghost use Rattle.cv_serve_round.specs.Round.{AreRoundSeats, moment_of};
ghost use Rattle.cv_serve_kept.specs.Ends.{FirstRose, KeptEnds};
ghost use Rattle.cv_serve_kept.specs.Start.{IsResumed, service_limits};
ghost use Rattle.cv_serve_kept.specs.code.Stops.{end_of, is_desk_stop, is_keep_stop, is_write_stop};

use crate::lines::{write_bad_keep, write_resumed};
use crate::stop::Stop;
use cv_desk::Desk;
use cv_io::Sink;
use cv_keep::{Disk, Journal, KeepError};
use cv_keep_replay::{ReplayError, replay};
use cv_serve_round::{Identity, Service};
use std::alloc::Global;
use std::sync::Wait;

/// Submits the kept events to a hub that has applied none, and writes how many there are, or which record is not good.
pub fn resume<K: Sink, J: Disk, D: Desk + Drop, L: Identity, W: Wait>(
    rt: &W,
    alloc: Global,
    service: &mut Service<D, L>,
    journal: &Journal,
    output: &mut K,
    disk: &mut J,
    desks: &mut [D],
) -> Result<(), Stop>
    requires sound { journal.now.failed ≡ false }
    requires belongs { Belongs J.contents J.moment J.may_leave journal.now disk.old }
    requires limits { L.limits ≡ service_limits }
    requires hub { service.old.hub ≡ [] }
    requires seats { AreRoundSeats L.parts (length desks.old) [] service.old.seats.items }
    requires fresh { AreFresh 0 service.old.seats.items }
    requires workers { (1 ≤ length desks.old) × (length desks.old ≤ 8) }
    requires room { AllByRecursion (λ desk. D.listings desk < 2 ^ 62) desks.old }
    ensures resumed { OnOk result (IsResumed D.tree D.listings D.faults (option_map records (J.contents disk.old)) (moment_of (trees_of D.tree) L.limits service.new.hub)
        (K.contents output.old) (K.contents output.new) desks.old desks.new) }
    ensures ended { (workers : ℕ) (remaining : Option (List ℕ)) → IfErr result (λ stopped. KeptEnds D.tree workers D.listings D.faults
        (record { remaining = remaining; written = K.contents output.old; kept = option_map records (J.contents disk.old); desks = desks.old })
        (record { remaining = remaining; written = K.contents output.new; kept = option_map records (J.contents disk.new); desks = desks.new })
        (end_of (Err stopped))) }
    ensures prepared { OnOk result (IsPrepared D.listings L.parts service.new.hub service.new.seats.items desks.new) }
    ensures belongs { Belongs J.contents J.moment J.may_leave journal.now disk.new }
    ensures contents { J.contents disk.new ≡ J.contents disk.old }
    ensures write_cause { CausedBy (K.faults output.old) (K.faults output.new) (is_write_stop result) }
    ensures keep_cause { CausedBy (J.faults disk.old) (J.faults disk.new) (is_keep_stop result) }
    ensures desk_cause { is_desk_stop result ≡ true → FirstRose D.faults desks.old desks.new }
{
    let seats = service.seats.as_mut_slice();
    let first = &mut desks[0];
    match replay(rt, alloc, journal, disk, &mut service.hub, seats, first) {
        Ok(resumed) => Ok(write_resumed(alloc, output, resumed.events, resumed.generation)?),
        Err(ReplayError::BadKeep(place)) => {
            write_bad_keep(alloc, output, place)?;
            Err(Stop::BadKeep)
        }
        Err(ReplayError::DeskFault) => Err(Stop::Desk),
        Err(ReplayError::KeepFault) => Err(Stop::Keep(KeepError::DiskFault)),
        Err(ReplayError::NoMemory) => Err(Stop::NoMemory),
    }
}
