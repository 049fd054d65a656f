ghost use Rattle.std.specs.Prelude.{◌≡◌, ◌≤◌, length};
ghost use Rattle.left_right.specs.Sides.{view};

use crate::identity::Identity;
use crate::post::PostReader;
use crate::prefix::Prefix;
use cv_desk::Desk;
use std::marker::Model;

/// A beginning of the hub's list, for a seat to learn, with a reader that knows that it was published. Contracts see it as its events.
pub struct Note<D: Desk, L: Identity> {
    reader: PostReader<D, L>,
    front: Prefix<D, L>,
}

/// Written out, so that the crates above call it, and do not prove anew how each part is dropped.
impl<D: Desk, L: Identity> Drop for Note<D, L> {
    fn drop(self) {
        let Note {
            reader: _,
            front: _,
        } = self;
    }
}

impl<D: Desk, L: Identity> Model for Note<D, L> {
    ghost use Rattle.std.specs.Prelude.{List, ◌≤◌, length};
    ghost use Rattle.left_right.specs.Sides.{view as known};
    ghost use Rattle.cv_hub_seats.specs.declared.submission.Submission.{Submission};

    ghost Value = { List Submission };

    ghost view = { λ n. n.front };

    ghost invariant = { λ n. length n.front ≤ known n.reader.place };
}

impl<D: Desk, L: Identity> Note<D, L> {
    /// A note of a beginning of the list, with a reader that knows of all its events.
    pub fn of(reader: PostReader<D, L>, front: Prefix<D, L>) -> Note<D, L>
        requires { length front ≤ view reader.place }
        ensures { result ≡ front }
    {
        Note { reader, front }
    }

    /// How many events it has. It takes no memory.
    pub fn number(&self) -> u64
        ensures { result ≡ length self.now }
    {
        self.front.len()
    }

    /// Its reader and its events.
    pub(crate) fn open(self) -> (PostReader<D, L>, Prefix<D, L>)
        ensures front { result.1 ≡ self }
        ensures known { length result.1 ≤ view result.0.place }
    {
        let Note { reader, front } = self;
        (reader, front)
    }
}
