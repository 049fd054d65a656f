ghost use Rattle.std.specs.Prelude.{◌≡◌, ℕ, List, Option, IfErr, IfOk, OnErr, OnOk};
ghost use Rattle.std.specs.Io.KnownBytes.{Appends};
ghost use Rattle.std.specs.List.{AllByRecursion, flat_map};
ghost use mathlib.Core.List.{IsPrefix};
ghost use Rattle.cv_seq.specs.Cause.{CausedBy};
ghost use Rattle.cv_io.specs.Fault.{is_write_fault};
ghost use Rattle.cv_core_machine.specs.Scans.{StatesEveryLayer, trees_of};
ghost use Rattle.cv_hub_seats.specs.Seats.{seat_of};
ghost use Rattle.cv_serve_round.specs.Round.{AreRoundSeats};
ghost use Rattle.cv_serve_pushed.specs.Attempts.{notifications_after};
ghost use Rattle.cv_serve_pushed.specs.HookText.{HasNoTag, hook_text};
ghost use Rattle.cv_serve_pushed.specs.Pushes.{MadeAttempts, StoppedAttempts, push_state};
ghost use Rattle.cv_serve_pushed.specs.code.Pushing.{StopsAfterLines, WroteAttempts};
ghost use Rattle.cv_hook.specs.Attempts.{new_outbox};

use crate::attempts::attempt_round;
use crate::text::hook_text;
use crate::view::view_of;
use cv_base::{NoMemory, Seq};
use cv_desk::Desk;
use cv_hook::{Hook, HookLine, Outbox};
use cv_hub::{Hub, Identity, Seat};
use cv_io::{Sink, WriteError, write_all};
use cv_serve_dealing::{Keeper, NotedLine};
use cv_serve_round::{RoundKeeper, Service};
use cv_transcript::Entry;
use std::alloc::Global;
use std::marker::{Model, PhantomData};
use std::sync::Wait;

/// Keeps nothing of the rounds. After the lines of each round it makes the attempts of a hook, and writes their lines. Contracts see its
/// outbox.
#[derive(Drop)]
pub struct PushRounds<H> {
    outbox: Outbox,
    of: PhantomData<H>,
}

impl<H> Model for PushRounds<H> {
    ghost use Rattle.cv_hook.specs.Attempts.{OutboxState};

    ghost Value = { OutboxState };

    ghost view = { λ p. p.outbox };
}

impl<H> PushRounds<H> {
    /// Nothing was taken yet.
    pub fn new() -> PushRounds<H>
        ensures { result ≡ new_outbox }
    {
        PushRounds {
            outbox: Outbox::new(),
            of: PhantomData,
        }
    }
}

impl<H: Hook> Keeper for PushRounds<H> {
    ghost use Rattle.std.specs.Prelude.{⊤};

    type Disk = H;

    ghost is_ready = { λ _. ⊤ };

    ghost keeps = { λ before _ after. after ≡ before };

    ghost may_keep = { λ before _ after. after ≡ before };

    ghost notes = { λ _ _. ⊤ };

    ghost none = { tt };

    fn note(
        &self,
        _alloc: Global,
        _noted: &mut Vec<NotedLine>,
        _number: u64,
        _text: &[u8],
    ) -> Result<(), NoMemory> {
        Ok(())
    }

    fn keep(
        &mut self,
        _alloc: Global,
        _hook: &mut H,
        _noted: &[NotedLine],
        _entries: &[Entry],
    ) -> Result<(), NoMemory> {
        Ok(())
    }
}

impl<H: Hook> RoundKeeper for PushRounds<H> {
    ghost use Rattle.cv_serve_pushed.specs.Pushes.{Pushes, StopsPushing, push_of};
    ghost use Rattle.cv_serve_pushed.specs.code.PushLaws.{unkept_stops, written_stops};

    ghost ends = { λ tree before round moment after. Pushes tree (push_of H.offers H.faults before) round moment (push_of H.offers H.faults after) };

    ghost may_stop = { λ tree error before round moment after. StopsPushing tree error (push_of H.offers H.faults before) round moment (push_of H.offers H.faults after) };

    fn end_round<K: Sink, D: Desk + Drop, L: Identity, W: Wait>(
        &mut self,
        rt: &W,
        alloc: Global,
        service: &mut Service<D, L>,
        hook: &mut H,
        output: &mut K,
    ) -> Result<(), WriteError> {
        write_attempts(rt, alloc, service, &mut self.outbox, hook, output)
    }

    ghost stops_written = { λ tree error x y w v round moment. written_stops H.offers H.faults tree error x y w v round moment };

    ghost stops_unkept = { λ tree x y w round moment. unkept_stops H.offers H.faults tree x y w round moment };
}

/// Makes the attempts of a round, and writes their lines. All lines are made before the first one is written.
fn write_attempts<H: Hook, K: Sink, D: Desk + Drop, L: Identity, W: Wait>(
    rt: &W,
    alloc: Global,
    service: &mut Service<D, L>,
    outbox: &mut Outbox,
    hook: &mut H,
    output: &mut K,
) -> Result<(), WriteError>
    requires seats { (workers : ℕ) × AreRoundSeats L.parts workers service.old.hub service.old.seats.items }
    ensures wrote { OnOk result (WroteAttempts (StatesEveryLayer D.tree) (notifications_after D.tree L.limits service.old.hub)
        (push_state outbox.old (H.offers hook.old) (H.faults hook.old)) (push_state outbox.new (H.offers hook.new) (H.faults hook.new)) (K.contents output.old) (K.contents output.new)) }
    ensures stopped { IfErr result (StopsAfterLines (StatesEveryLayer D.tree) (notifications_after D.tree L.limits service.old.hub)
        (push_state outbox.old (H.offers hook.old) (H.faults hook.old)) (push_state outbox.new (H.offers hook.new) (H.faults hook.new)) (K.contents output.old) (K.contents output.new)) }
    ensures events { service.new.hub ≡ service.old.hub }
    ensures seats { (workers : ℕ) → AreRoundSeats L.parts workers service.old.hub service.old.seats.items → AreRoundSeats L.parts workers service.new.hub service.new.seats.items }
    ensures cause { CausedBy (K.faults output.old) (K.faults output.new) (is_write_fault result) }
{
    let lines = attempt(rt, alloc, service, outbox, hook)?;
    let bytes = bytes_of(alloc, lines.as_slice())?;
    write_all(output, bytes.as_slice())
}

/// Makes the attempts of a round, over the events that were taken of the hub. No event comes meanwhile, as the seats' receipts show.
fn attempt<H: Hook, D: Desk + Drop, L: Identity, W: Wait>(
    rt: &W,
    alloc: Global,
    service: &mut Service<D, L>,
    outbox: &mut Outbox,
    hook: &mut H,
) -> Result<Seq<HookLine>, NoMemory>
    requires seats { (workers : ℕ) × AreRoundSeats L.parts workers service.old.hub service.old.seats.items }
    ensures made { IfOk result (MadeAttempts (StatesEveryLayer D.tree) (notifications_after D.tree L.limits service.old.hub)
        (push_state outbox.old (H.offers hook.old) (H.faults hook.old)) (push_state outbox.new (H.offers hook.new) (H.faults hook.new))) }
    ensures stopped { OnErr result (StoppedAttempts (StatesEveryLayer D.tree) (notifications_after D.tree L.limits service.old.hub)
        (push_state outbox.old (H.offers hook.old) (H.faults hook.old)) (push_state outbox.new (H.offers hook.new) (H.faults hook.new))) }
    ensures events { service.new.hub ≡ service.old.hub }
    ensures seats { (workers : ℕ) → AreRoundSeats L.parts workers service.old.hub service.old.seats.items → AreRoundSeats L.parts workers service.new.hub service.new.seats.items }
{
    let Some(seat) = service.seats.pop() else {
        unreachable!()
    };
    let (seat, made) = attempt_at(rt, alloc, &service.hub, seat, outbox, hook);
    service.seats.push_reserved(seat);
    service.hub.take_events(rt, service.seats.as_mut_slice());
    made
}

/// Makes the attempts of a round, over what a seat views.
fn attempt_at<H: Hook, D: Desk + Drop, L: Identity, W: Wait>(
    rt: &W,
    alloc: Global,
    hub: &Hub<D, L>,
    seat: Seat<D, L>,
    outbox: &mut Outbox,
    hook: &mut H,
) -> (Seat<D, L>, Result<Seq<HookLine>, NoMemory>)
    ensures taken { IsPrefix hub.now result.0.list }
    ensures seat { result.0 ≡ seat_of seat.index result.0.list seat.count result.0.refused }
    ensures made { IfOk result.1 (MadeAttempts (StatesEveryLayer D.tree) (notifications_after D.tree L.limits result.0.list)
        (push_state outbox.old (H.offers hook.old) (H.faults hook.old)) (push_state outbox.new (H.offers hook.new) (H.faults hook.new))) }
    ensures stopped { OnErr result.1 (StoppedAttempts (StatesEveryLayer D.tree) (notifications_after D.tree L.limits result.0.list)
        (push_state outbox.old (H.offers hook.old) (H.faults hook.old)) (push_state outbox.new (H.offers hook.new) (H.faults hook.new))) }
{
    let view = view_of(rt, hub, seat);
    let made = attempt_round(alloc, &view, outbox, hook);
    (view.close(), made)
}

/// The bytes of lines.
fn bytes_of(alloc: Global, lines: &[HookLine]) -> Result<Vec<u8>, NoMemory>
    ensures text { IfOk result (λ bytes. bytes.items ≡ flat_map hook_text lines.now) }
    ensures untagged { OnOk result (AllByRecursion HasNoTag lines.now) }
{
    let mut bytes = Vec::new(alloc);
    for line in lines {
        let text = hook_text(alloc, line)?;
        bytes.extend_from_slice(text.as_bytes())?;
    }
    Ok(bytes)
}
