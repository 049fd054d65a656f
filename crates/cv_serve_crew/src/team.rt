ghost use Rattle.std.specs.Prelude.{OnOk};
ghost use Rattle.std.specs.Thread.{IsSend, IsSync};
ghost use Rattle.cv_serve_crew.specs.code.Team.{ArePrepared, EachDid};

use cv_seq::NoMemory;
use std::thread::{Threads, join_mut};

/// Work that threads do concurrently, each at a seat and a part of its own.
pub trait Team<S, P> {
    /// What has to hold before.
    ghost prepared: { Self → S → P → Type 0 };

    /// What was done.
    ghost did: { Self → S → S → P → P → Type 0 };

    /// Whether so little work is at a part that a thread of its own is not worth it.
    fn is_idle(&self, part: &P) -> bool;

    /// Does the work of one place.
    fn run(&self, seat: &mut S, part: &mut P) -> Result<(), NoMemory>
        requires { prepared self.now seat.old part.old }
        ensures { OnOk result (did self.now seat.old seat.new part.old part.new) };
}

/// Does the work of all places concurrently, as far as both slices go. Idle places have no thread of their own, and neither has
/// the last place.
pub fn run_team<S: Send, P: Send, T: Team<S, P> + Sync, W: Threads + Sync>(
    rt: &W,
    team: &T,
    seats: &mut [S],
    parts: &mut [P],
) -> Result<(), NoMemory>
    requires { ArePrepared (T.prepared team.now) seats.old parts.old }
    ensures { OnOk result (EachDid (T.did team.now) seats.old seats.new parts.old parts.new) }
{
    let Some((seat, seats)) = seats.split_first_mut() else {
        return Ok(());
    };
    let Some((part, parts)) = parts.split_first_mut() else {
        return Ok(());
    };
    if parts.is_empty() || team.is_idle(part) {
        team.run(seat, part)?;
        return run_team(rt, team, seats, parts);
    }
    let (first, others) = join_mut(
        rt,
        &mut || -> Result<(), NoMemory>
            requires { T.prepared team.now seat.now part.now }
            ensures { OnOk result (T.did team.entry.now seat.entry.now seat.exit.now part.entry.now part.exit.now) }
        { team.run(seat, part) },
        &mut || -> Result<(), NoMemory>
            requires { IsSync W.row × IsSync T.row × IsSend S.row × IsSend P.row × ArePrepared (T.prepared team.now) seats.now parts.now }
            ensures { OnOk result (EachDid (T.did team.entry.now) seats.entry.now seats.exit.now parts.entry.now parts.exit.now) }
        { run_team(rt, team, seats, parts) },
    );
    first?;
    others
}
