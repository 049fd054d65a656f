ghost use Rattle.std.specs.Prelude.{◌≡◌, [], ◌∷◌, ◌++◌, ◌+◌, ◌<◌, ◌^◌, ◌&&◌, false, nat_le, nat_lt, length, List, OnOk};
ghost use Rattle.std.specs.List.{AllByRecursion};
ghost use Rattle.cv_base.specs.Lines.{Line};
ghost use Rattle.cv_base.specs.Texts.{is_cons};
ghost use Rattle.cv_serve_legal.specs.declared.limits.TheConstants.{MAX_ROUND_BYTES, MAX_ROUND_LINES};
ghost use Rattle.cv_serve_dealing.specs.Noted.{noted_line};
ghost use Rattle.cv_serve_round.specs.Round.{IsSoundTaken};
ghost use Rattle.cv_serve_round.specs.Begun.{no_lines};
ghost use Rattle.cv_serve_round.specs.code.LineParts.{IsRoomFor};

use cv_base::NoMemory;
use cv_serve_dealing::{Keeper, NotedLine};
use cv_serve_legal::{MAX_ROUND_BYTES, MAX_ROUND_LINES, ParsedLine};
use std::alloc::Global;
use std::marker::Model;
use std::mem;

/// A round that has begun. Contracts see what became of its lines, how many bytes they have, and which of them are noted.
#[derive(Drop)]
pub struct Round {
    taken: Vec<ParsedLine>,
    bytes: usize,
    noted: Vec<NotedLine>,
}

impl Model for Round {
    ghost use Rattle.cv_serve_round.specs.Begun.{RoundView};
    ghost use Rattle.cv_serve_round.specs.code.LineParts.{IsSoundRound};

    ghost Value = { RoundView };

    ghost view = { λ r. record { taken = r.taken.items; bytes = r.bytes; noted = r.noted.items } };

    ghost invariant = { λ r. IsSoundRound r.taken.items r.bytes };
}

impl Round {
    /// A round without lines. It takes no memory.
    pub fn new(alloc: Global) -> Round
        ensures { result ≡ no_lines }
    {
        Round {
            taken: Vec::new(alloc),
            bytes: 0,
            noted: Vec::new(alloc),
        }
    }

    /// Takes what became of all its lines, and those that are noted. It has no lines then.
    pub(crate) fn take_all(&mut self, alloc: Global) -> (Vec<ParsedLine>, Vec<NotedLine>)
        ensures taken { result.0.items ≡ self.old.taken }
        ensures noted { result.1.items ≡ self.old.noted }
        ensures sound { AllByRecursion IsSoundTaken result.0.items }
        ensures begins { self.new ≡ no_lines }
    {
        self.bytes = 0;
        let taken = mem::replace(&mut self.taken, Vec::new(alloc));
        (taken, mem::replace(&mut self.noted, Vec::new(alloc)))
    }

    /// Has a keeper note a line that is put into it next.
    pub(crate) fn note<P: Keeper>(
        &mut self,
        alloc: Global,
        keeper: &P,
        number: u64,
        text: &[u8],
    ) -> Result<(), NoMemory>
        requires fits { length text.now < 2 ^ 32 }
        ensures noted { OnOk result ((lines : List Line) → P.notes self.old.noted lines → P.notes self.new.noted (lines ++ noted_line number text.now ∷ [])) }
        ensures same { (self.new.taken ≡ self.old.taken) × (self.new.bytes ≡ self.old.bytes) }
    {
        keeper.note(alloc, &mut self.noted, number, text)
    }

    /// Puts what became of a line of this length in bytes into it.
    pub(crate) fn put(&mut self, taken: ParsedLine, bytes: usize) -> Result<(), NoMemory>
        requires taken { IsSoundTaken taken }
        requires room { IsRoomFor self.old.bytes bytes }
        ensures taken { OnOk result (self.new.taken ≡ self.old.taken ++ taken ∷ []) }
        ensures bytes { OnOk result (self.new.bytes ≡ self.old.bytes + bytes) }
        ensures noted { self.new.noted ≡ self.old.noted }
    {
        self.taken.push(taken)?;
        self.bytes += bytes;
        Ok(())
    }

    /// Whether a line of this length in bytes would make it too long. A round without lines takes any line.
    pub(crate) fn is_too_long(&self, bytes: usize) -> bool
        requires text { 0 < bytes }
        ensures value { result ≡ (is_cons self.now.taken && nat_lt MAX_ROUND_BYTES (self.now.bytes + bytes)) }
        ensures room { result ≡ false → IsRoomFor self.now.bytes bytes }
    {
        self.has_lines() && is_past(self.bytes, bytes)
    }

    /// Whether it has as many lines as it may have.
    pub(crate) fn is_full(&self) -> bool
        ensures { result ≡ nat_le MAX_ROUND_LINES (length self.now.taken) }
    {
        self.taken.len() >= MAX_ROUND_LINES
    }

    /// Whether it has a line.
    pub(crate) fn has_lines(&self) -> bool
        ensures { result ≡ is_cons self.now.taken }
    {
        !self.taken.is_empty()
    }
}

/// Whether this number of bytes more is more than a round may have.
fn is_past(bytes: usize, more: usize) -> bool
    requires text { 0 < more }
    ensures { result ≡ nat_lt MAX_ROUND_BYTES (bytes + more) }
{
    MAX_ROUND_BYTES.saturating_sub(bytes) < more
}
