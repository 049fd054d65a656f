ghost use Rattle.std.specs.Prelude.{◌≡◌, ◌+◌, ◌-◌, ◌^◌, min, MatchResult};
ghost use Rattle.left_right.specs.Sides.{view};
ghost use Rattle.cv_hub_seats.specs.Posts.{Enters};

use crate::identity::Identity;
use crate::post::{Post, PostReader, PostReading, Sees};
use cv_desk::Desk;
use std::marker::Model;

/// Through which a seat reads what is published. Contracts see of how many published events it knows, and how often it was refused.
pub struct Door<D: Desk, L: Identity> {
    reader: PostReader<D, L>,
    refused: u64,
}

/// Written out, so that the crates above call it, and do not prove anew how each part is dropped.
impl<D: Desk, L: Identity> Drop for Door<D, L> {
    fn drop(self) {
        let Door {
            reader: _,
            refused: _,
        } = self;
    }
}

impl<D: Desk, L: Identity> Model for Door<D, L> {
    ghost use Rattle.left_right.specs.Sides.{view as known};
    ghost use Rattle.cv_hub_seats.specs.code.Views.{DoorView};

    ghost Value = { DoorView };

    ghost view = { λ d. record { known = known d.reader.place; refused = d.refused } };
}

impl<D: Desk, L: Identity> Door<D, L> {
    /// One that was never refused.
    pub fn new(reader: PostReader<D, L>) -> Door<D, L>
        ensures known { result.known ≡ view reader.place }
        ensures refused { result.refused ≡ 0 }
    {
        Door { reader, refused: 0 }
    }

    /// How often it was refused, counted up to 2^64 - 1.
    pub fn refused(&self) -> u64
        ensures { result ≡ self.now.refused }
    {
        self.refused
    }

    /// Takes a reader in place of its own.
    pub fn learn(&mut self, reader: PostReader<D, L>)
        ensures known { self.new.known ≡ view reader.place }
        ensures refused { self.new.refused ≡ self.old.refused }
    {
        self.reader = reader;
    }

    /// Enters what is published, or counts one more refusal. It neither waits nor takes memory.
    pub fn enter(self) -> Result<Entered<D, L>, Door<D, L>>
        ensures { MatchResult result (λ entered. Enters D.tree L.limits L.parts L.book self.known entered.post entered.post entered.known × (entered.refused ≡ self.refused)) (λ door. (door.known ≡ self.known) × (door.refused ≡ min (self.refused + 1) (2 ^ 64 - 1))) }
    {
        let Door { reader, refused } = self;
        match reader.enter_as::<Sees<D, L>>() {
            Ok(reading) => Ok(Entered { reading, refused }),
            Err(reader) => Err(Door {
                reader,
                refused: refused.saturating_add(1),
            }),
        }
    }
}

/// A door that was entered. Contracts see what it reads, of how many published events it knows, and how often it was refused, which
/// no function outside this file can set. It is not `Drop`: end it by `leave`.
pub struct Entered<D: Desk, L: Identity> {
    reading: PostReading<D, L>,
    refused: u64,
}

impl<D: Desk, L: Identity> Model for Entered<D, L> {
    ghost use Rattle.left_right.specs.Sides.{view as known};
    ghost use Rattle.cv_hub_seats.specs.code.Views.{EnteredView};

    ghost Value = { EnteredView };

    ghost view = { λ e. record { post = e.reading.part.value; known = known e.reading.place; refused = e.refused } };
}

impl<D: Desk, L: Identity> Entered<D, L> {
    /// What it reads.
    pub fn get(&self) -> &Post
        ensures { result.now ≡ self.now.post }
    {
        self.reading.get()
    }

    /// Ends it, and gives back the door with its count. It neither waits nor takes memory.
    pub fn leave(self) -> Door<D, L>
        ensures known { result.known ≡ self.known }
        ensures refused { result.refused ≡ self.refused }
    {
        let Entered { reading, refused } = self;
        let reader = reading.leave();
        Door { reader, refused }
    }
}
