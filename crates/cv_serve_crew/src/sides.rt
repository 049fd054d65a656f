ghost use Rattle.std.specs.Prelude.{◌+◌, ◌<◌, ◌≤◌, ◌^◌, length, take, drop, OnOk};
ghost use Rattle.std.specs.Thread.{IsSend, IsSync};
ghost use Rattle.cv_serve_crew.specs.code.Team.{AreLater, ArePrepared, ArePreparedFrom, EachDid, EachDidFrom};

use crate::crew::{Crew, run_crew};
use crate::team::{Team, run_team};
use cv_seq::NoMemory;
use std::thread::{Threads, join_mut};

/// Does the work of a team beside that of a crew, or before it, if the crew is idle. The first seats are the team's, as many as it has
/// parts, and the others the crew's.
#[tactic(auto, using(crate::proofs::Later::later_same))]
pub fn run_sides<
    S: Send,
    P: Send,
    H: Send,
    K: Send,
    T: Team<S, P> + Sync,
    C: Crew<H, S, K> + Sync,
    W: Threads + Sync,
>(
    rt: &W,
    team: &T,
    crew: &C,
    parts: &mut [P],
    hands: &mut [H],
    seats: &mut [S],
    desks: &mut [K],
) -> Result<(), NoMemory>
    requires seats { length parts.old ≤ length seats.old }
    requires in_range { length desks.old < 2 ^ 32 }
    requires team { ArePrepared (T.prepared team.now) (take (length parts.old) seats.old) parts.old }
    requires crew { ArePreparedFrom (C.prepared crew.now) 0 hands.old (drop (length parts.old) seats.old) desks.old }
    ensures team { OnOk result (EachDid (T.did team.now) (take (length parts.old) seats.old) (take (length parts.old) seats.new) parts.old parts.new) }
    ensures crew { OnOk result (EachDidFrom (C.did crew.now) 0 hands.old hands.new (drop (length parts.old) seats.old) (drop (length parts.old) seats.new) desks.old desks.new) }
    ensures listed { AreLater C.listed desks.old desks.new }
    ensures failed { AreLater C.failed desks.old desks.new }
{
    let (front, back) = seats.split_at_mut(parts.len());
    if crew.is_idle() {
        run_team(rt, team, front, parts)?;
        return run_crew(rt, crew, 0, hands, back, desks);
    }
    let (team_end, crew_end) = join_mut(
        rt,
        &mut || -> Result<(), NoMemory>
            requires { IsSync W.row × IsSync T.row × IsSend S.row × IsSend P.row × ArePrepared (T.prepared team.now) front.now parts.now }
            ensures { OnOk result (EachDid (T.did team.entry.now) front.entry.now front.exit.now parts.entry.now parts.exit.now) }
        { run_team(rt, team, front, parts) },
        &mut || -> Result<(), NoMemory>
            requires { IsSync W.row × IsSync C.row × IsSend H.row × IsSend S.row × IsSend K.row × (length desks.now < 2 ^ 32) × ArePreparedFrom (C.prepared crew.now) 0 hands.now back.now desks.now }
            ensures did { OnOk result (EachDidFrom (C.did crew.entry.now) 0 hands.entry.now hands.exit.now back.entry.now back.exit.now desks.entry.now desks.exit.now) }
            ensures listed { AreLater C.listed desks.entry.now desks.exit.now }
            ensures failed { AreLater C.failed desks.entry.now desks.exit.now }
        { run_crew(rt, crew, 0, hands, back, desks) },
    );
    team_end?;
    crew_end
}
