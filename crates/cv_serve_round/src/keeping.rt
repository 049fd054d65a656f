ghost use Rattle.std.specs.Prelude.{◌≡◌, ℕ, List, Option, IfErr, OnOk};
ghost use Rattle.std.specs.Io.KnownBytes.{Appends};
ghost use Rattle.std.specs.List.{flat_map};
ghost use Rattle.cv_seq.specs.Cause.{CausedBy};
ghost use Rattle.cv_io.specs.Fault.{is_write_fault};
ghost use Rattle.cv_io.specs.Writes.{AppendsPrefix};
ghost use Rattle.cv_io.specs.declared.write.WriteError.{WriteError};
ghost use Rattle.cv_io.specs.declared.write.WriteError.TheVariants as error;
ghost use Rattle.cv_transcript.specs.Entry.{entry_text};
ghost use Rattle.cv_core_machine.specs.Scans.{trees_of};
ghost use Rattle.cv_serve_lanes.specs.Events.{DeskTrees};
ghost use Rattle.cv_serve_legal.specs.Replay.{Moment};
ghost use Rattle.cv_serve_legal.specs.Whole.{WholeRound};
ghost use Rattle.cv_serve_round.specs.Round.{AreRoundSeats, moment_of};

use crate::start::Service;
use cv_desk::Desk;
use cv_hub::Identity;
use cv_io::{Sink, WriteError};
use cv_serve_dealing::{KeepNothing, Keeper};
use std::alloc::Global;
use std::sync::Wait;

/// A keeper that may do and write something more after the lines of a round. Its members speak of the keeper with its disk and with
/// the bytes written, and of the moment after the round, whose trees are those of this type of desks.
pub trait RoundKeeper: Keeper {
    /// The round was kept, its lines were written, and what follows them was done.
    ghost ends: { DeskTrees → (Self × Self.Disk) × Option (List ℕ) → WholeRound → Moment → (Self × Self.Disk) × Option (List ℕ) → Type 0 };

    /// The round was run, and stopped by this error somewhere after that.
    ghost may_stop: { DeskTrees → WriteError → (Self × Self.Disk) × Option (List ℕ) → WholeRound → Moment → (Self × Self.Disk) × Option (List ℕ) → Type 0 };

    /// Does what follows a round that was kept, and whose lines were written.
    fn end_round<K: Sink, D: Desk + Drop, L: Identity, W: Wait>(
        &mut self,
        rt: &W,
        alloc: Global,
        service: &mut Service<D, L>,
        disk: &mut Self::Disk,
        output: &mut K,
    ) -> Result<(), WriteError>
        requires ready { Self.is_ready (self.old, disk.old) }
        requires seats { (workers : ℕ) × AreRoundSeats L.parts workers service.old.hub service.old.seats.items }
        ensures ready { OnOk result (Self.is_ready (self.new, disk.new)) }
        ensures ended { (before : Self × Self.Disk) (written : Option (List ℕ)) (round : WholeRound) → Self.keeps before round (self.old, disk.old) → Appends written (K.contents output.old) (flat_map entry_text round.entries)
            → OnOk result (ends D.tree (before, written) round (moment_of (trees_of D.tree) L.limits service.old.hub) ((self.new, disk.new), K.contents output.new)) }
        ensures stopped { (before : Self × Self.Disk) (written : Option (List ℕ)) (round : WholeRound) → Self.keeps before round (self.old, disk.old) → Appends written (K.contents output.old) (flat_map entry_text round.entries)
            → IfErr result (λ error. may_stop D.tree error (before, written) round (moment_of (trees_of D.tree) L.limits service.old.hub) ((self.new, disk.new), K.contents output.new)) }
        ensures events { service.new.hub ≡ service.old.hub }
        ensures seats { (workers : ℕ) → AreRoundSeats L.parts workers service.old.hub service.old.seats.items → AreRoundSeats L.parts workers service.new.hub service.new.seats.items }
        ensures cause { CausedBy (K.faults output.old) (K.faults output.new) (is_write_fault result) };

    /// A round that was kept, and of whose lines the first bytes were written, may stop so.
    ghost stops_written: { (tree : DeskTrees) (error : WriteError) (before after : Self × Self.Disk) (written written_now : Option (List ℕ)) (round : WholeRound) (moment : Moment)
        → Self.keeps before round after → AppendsPrefix written written_now (flat_map entry_text round.entries) → may_stop tree error (before, written) round moment (after, written_now) };

    /// So may one that was not kept as memory ran out.
    ghost stops_unkept: { (tree : DeskTrees) (before after : Self × Self.Disk) (written : Option (List ℕ)) (round : WholeRound) (moment : Moment)
        → Self.may_keep before round after → may_stop tree error.NoMemory (before, written) round moment (after, written) };
}

/// Nothing follows the lines of a round.
impl RoundKeeper for KeepNothing {
    ghost use Rattle.cv_serve_round.specs.Written.{EndsWritten, StopsWritten};
    ghost use Rattle.cv_serve_round.specs.code.WrittenLaws.{unkept_stops, written_stops};

    ghost ends = { λ _ before round moment after. EndsWritten Self.keeps before round moment after };

    ghost may_stop = { λ _ error before round moment after. StopsWritten Self.keeps Self.may_keep error before round moment after };

    fn end_round<K: Sink, D: Desk + Drop, L: Identity, W: Wait>(
        &mut self,
        _rt: &W,
        _alloc: Global,
        _service: &mut Service<D, L>,
        _disk: &mut (),
        _output: &mut K,
    ) -> Result<(), WriteError> {
        Ok(())
    }

    ghost stops_written = { λ _ error x y w v round moment. written_stops Self.keeps Self.may_keep error x y w v round moment };

    ghost stops_unkept = { λ _ x y w round moment. unkept_stops Self.keeps Self.may_keep x y w round moment };
}
