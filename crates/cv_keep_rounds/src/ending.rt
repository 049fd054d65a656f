use crate::keeper::KeepRounds;
use cv_desk::Desk;
use cv_io::{Sink, WriteError};
use cv_keep::Disk;
use cv_serve_round::{Identity, RoundKeeper, Service};
use std::alloc::Global;
use std::sync::Wait;

/// Nothing follows the lines of a round.
impl<J: Disk> RoundKeeper for KeepRounds<J> {
    ghost use Rattle.cv_serve_round.specs.Written.{EndsWritten, StopsWritten};
    ghost use Rattle.cv_serve_round.specs.code.WrittenLaws.{unkept_stops, written_stops};

    ghost ends = { λ _ before round moment after. EndsWritten Self.keeps before round moment after };

    ghost may_stop = { λ _ error before round moment after. StopsWritten Self.keeps Self.may_keep error before round moment after };

    fn end_round<K: Sink, D: Desk + Drop, L: Identity, W: Wait>(
        &mut self,
        _rt: &W,
        _alloc: Global,
        _service: &mut Service<D, L>,
        _disk: &mut J,
        _output: &mut K,
    ) -> Result<(), WriteError> {
        Ok(())
    }

    ghost stops_written = { λ _ error x y w v round moment. written_stops Self.keeps Self.may_keep error x y w v round moment };

    ghost stops_unkept = { λ _ x y w round moment. unkept_stops Self.keeps Self.may_keep x y w round moment };
}
