ghost use Rattle.std.specs.Prelude.{◌≡◌, ◌<◌, ◌^◌, ◌++◌, [], ◌∷◌, List, length, IfOk, OnErr, OnOk};
ghost use Rattle.cv_base.specs.Lines.{Line};
ghost use Rattle.cv_serve_legal.specs.Rounds.{Round};
ghost use Rattle.cv_serve_legal.specs.Whole.{WholeRound, whole_round};
ghost use Rattle.cv_serve_dealing.specs.Noted.{noted_line};

use cv_base::NoMemory;
use cv_transcript::Entry;
use std::alloc::Global;
use std::marker::Model;

/// A line of a round, as a keeper notes it: its number, and its text, which has fewer than 2^32 bytes. Contracts see a line.
#[derive(Drop)]
pub struct NotedLine {
    number: u64,
    text: Vec<u8>,
}

impl Model for NotedLine {
    ghost use Rattle.std.specs.Prelude.{◌<◌, ◌^◌, length};
    ghost use Rattle.cv_base.specs.Lines.{Line};
    ghost use Rattle.cv_serve_dealing.specs.Noted.{noted_line};

    ghost Value = { Line };

    ghost view = { λ l. noted_line l.number l.text.items };

    ghost invariant = { λ l. length l.text.items < 2 ^ 32 };
}

impl NotedLine {
    /// A line of this number, with a copy of its text.
    pub fn new(alloc: Global, number: u64, text: &[u8]) -> Result<NotedLine, NoMemory>
        requires fits { length text.now < 2 ^ 32 }
        ensures { IfOk result (λ line. line ≡ noted_line number text.now) }
    {
        let mut copy = Vec::new(alloc);
        copy.extend_from_slice(text)?;
        Ok(NotedLine { number, text: copy })
    }

    /// Its number.
    pub fn number(&self) -> u64
        ensures { result ≡ self.now.number }
    {
        self.number
    }

    /// Its text.
    pub fn text(&self) -> &[u8]
        ensures value { result.now ≡ self.now.text }
        ensures fits { length result.now < 2 ^ 32 }
    {
        self.text.as_slice()
    }
}

/// What keeps the rounds of a service before their lines are written, on a disk of its own kind.
pub trait Keeper {
    type Disk;

    /// It can keep a round on this disk.
    ghost is_ready: { Self × Self.Disk → Type 0 };

    /// The round was kept.
    ghost keeps: { Self × Self.Disk → WholeRound → Self × Self.Disk → Type 0 };

    /// The round was kept, or it was not.
    ghost may_keep: { Self × Self.Disk → WholeRound → Self × Self.Disk → Type 0 };

    /// What it noted of the lines of a round.
    ghost notes: { List Line → Round → Type 0 };

    /// Of a round without lines it noted none.
    ghost none: { notes [] [] };

    /// Notes one more line of a round.
    fn note(
        &self,
        alloc: Global,
        noted: &mut Vec<NotedLine>,
        number: u64,
        text: &[u8],
    ) -> Result<(), NoMemory>
        requires fits { length text.now < 2 ^ 32 }
        ensures noted { OnOk result ((lines : Round) → notes noted.old.items lines → notes noted.new.items (lines ++ noted_line number text.now ∷ [])) };

    /// Keeps a round. Its lines were noted, and these are its entries.
    fn keep(
        &mut self,
        alloc: Global,
        disk: &mut Self::Disk,
        noted: &[NotedLine],
        entries: &[Entry],
    ) -> Result<(), NoMemory>
        requires ready { is_ready (self.old, disk.old) }
        ensures ready { OnOk result (is_ready (self.new, disk.new)) }
        ensures kept { (lines : Round) → notes noted.now lines → OnOk result (keeps (self.old, disk.old) (whole_round lines entries.now) (self.new, disk.new)) }
        ensures not_kept { (lines : Round) → notes noted.now lines → OnErr result (may_keep (self.old, disk.old) (whole_round lines entries.now) (self.new, disk.new)) };
}

/// Keeps nothing.
#[derive(Clone, Copy, Debug, PartialEq, Eq)]
pub struct KeepNothing;

impl Keeper for KeepNothing {
    ghost use Rattle.std.specs.Prelude.{⊤};

    type Disk = ();

    ghost is_ready = { λ _. ⊤ };

    ghost keeps = { λ _ _ _. ⊤ };

    ghost may_keep = { λ _ _ _. ⊤ };

    ghost notes = { λ _ _. ⊤ };

    ghost none = { tt };

    fn note(
        &self,
        _alloc: Global,
        _noted: &mut Vec<NotedLine>,
        _number: u64,
        _text: &[u8],
    ) -> Result<(), NoMemory> {
        Ok(())
    }

    fn keep(
        &mut self,
        _alloc: Global,
        _disk: &mut (),
        _noted: &[NotedLine],
        _entries: &[Entry],
    ) -> Result<(), NoMemory> {
        Ok(())
    }
}
