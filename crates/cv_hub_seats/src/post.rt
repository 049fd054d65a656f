ghost use Rattle.std.specs.Prelude.{◌≡◌, length, IfOk};
ghost use Rattle.cv_hub_seats.specs.Events.{IsListPrefix};
ghost use Rattle.cv_hub_seats.specs.Posts.{Enters, IsPosted};

use crate::book::EventListRule;
use crate::identity::Identity;
use crate::prefix::Prefix;
use crate::submission::Submission;
use crossbeam_utils::rule::{Outcome, Protocol};
use cv_base::NoMemory;
use cv_core::Board;
use cv_desk::Desk;
use left_right::Absorb;
use left_right::reader::{Reader, Reading};
use left_right::writer::Writer;
use logbook::Seen;
use std::alloc::AllocError;
use std::marker::{Model, PhantomData};

/// What is published of a hub: a board, and the beginning of the list that it is of. Contracts see the board, and the list with its
/// book.
pub struct Post {
    board: Board,
    number: u64,
    seen: Seen<Submission, u64, EventListRule>,
}

/// Written out, so that the crates above call it, and do not prove anew how each part is dropped.
impl Drop for Post {
    fn drop(self) {
        let Post {
            board: _,
            number: _,
            seen: _,
        } = self;
    }
}

impl Model for Post {
    ghost use Rattle.std.specs.Prelude.{◌≡◌, length};
    ghost use Rattle.cv_hub_seats.specs.Posts.{PostView};

    ghost Value = { PostView };

    ghost view = { λ p. record { board = p.board; book = p.seen.book; list = p.seen.log } };

    ghost invariant = { λ p. p.number ≡ length p.seen.log };
}

impl Post {
    /// A board with the list that it is of. It takes no memory.
    pub fn of<D: Desk, L: Identity>(board: Board, front: &Prefix<D, L>) -> Post
        ensures board { result.board ≡ board }
        ensures book { result.book ≡ L.book }
        ensures list { result.list ≡ front.now }
    {
        Post {
            board,
            number: front.number,
            seen: front.seen.again(),
        }
    }

    /// An equal one, which shares all parts. It takes no memory, and fails only if a count of owners is saturated.
    pub fn share(&self) -> Result<Post, NoMemory>
        ensures { IfOk result (λ post. post ≡ self.now) }
    {
        Ok(Post {
            board: self.board.share()?,
            number: self.number,
            seen: self.seen.again(),
        })
    }

    /// The board.
    pub fn board(&self) -> &Board
        ensures { result.now ≡ self.now.board }
    {
        &self.board
    }

    /// The list, which is a beginning of a hub's.
    pub fn front<D: Desk, L: Identity>(&self) -> Prefix<D, L>
        requires { IsListPrefix D.tree L.limits L.parts L.book (length self.now.list) self.now.book self.now.list }
        ensures { result ≡ self.now.list }
    {
        Prefix {
            number: self.number,
            seen: self.seen.again(),
            of: PhantomData,
        }
    }
}

/// The next value takes the place of the one before.
impl Absorb<Post> for Post {
    type State = Post;

    ghost state = { λ post. post };

    ghost applied = { λ before after. after };

    fn absorb_first(&mut self, operation: &Post, _other: &Post) -> Result<(), AllocError> {
        match operation.share() {
            Ok(post) => {
                *self = post;
                Ok(())
            }
            Err(NoMemory) => Err(AllocError),
        }
    }

    fn absorb_second(&mut self, operation: Post, _other: &Post) -> Result<(), Post> {
        *self = operation;
        Ok(())
    }
}

/// The rule of what a hub publishes: it shows its list, and each reader knows of no more events than that.
pub struct Rises<D: Desk, L: Identity> {
    of: PhantomData<(D, L)>,
}

impl<D: Desk, L: Identity> Protocol<Post, u64> for Rises<D, L> {
    ghost holds = { IsPosted D.tree L.limits L.parts L.book };

    ghost first = { 0 };
}

/// What a read and a publication tell: no event is lost, and all that is shown is known after it.
pub struct Sees<D: Desk, L: Identity> {
    of: PhantomData<(D, L)>,
}

impl<D: Desk, L: Identity> Outcome<Post, u64> for Sees<D, L> {
    ghost then = { Enters D.tree L.limits L.parts L.book };
}

/// A place at which what a hub publishes is read.
pub type PostReader<D, L> = Reader<Post, u64, Rises<D, L>>;

/// What is read at such a place.
pub type PostReading<D, L> = Reading<Post, u64, Rises<D, L>>;

/// What publishes for a hub.
pub type PostWriter<D, L> = Writer<Post, Post, u64, Rises<D, L>>;
