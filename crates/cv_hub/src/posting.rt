ghost use Rattle.std.specs.Prelude.{◌≡◌, ◌≤◌, ◌<◌, ◌^◌, [], ◌∷◌, drop, length, IfOk};
ghost use Rattle.cv_core_machine.specs.Board.{board_of};
ghost use Rattle.cv_core_machine.specs.Scans.{StatesEveryLayer, trees_of};
ghost use Rattle.cv_hub_seats.specs.Events.{state_of};
ghost use Rattle.cv_hub_seats.specs.Posts.{Shows};
ghost use Rattle.left_right.specs.Sides.{view};
ghost use Rattle.cv_hub.specs.code.Locked.{IsAfter};
ghost use Rattle.cv_hub.specs.code.Posting.{IsPending, IsPublished};

use cv_base::NoMemory;
use cv_core::{Board, Core};
use cv_desk::Desk;
use cv_hub_seats::{Identity, Post, PostReader, PostWriter, Prefix, Sees, told};
use left_right::writer::Writer;
use std::alloc::Global;
use std::sync::Wait;

/// For how many readers there are places: one for each seat, one for a seat that takes its next reader, and the others for notes that
/// are kept. Each publication goes through all of them.
fn reader_places(seats: u32) -> usize
    requires seats { seats ≤ 64 }
    ensures some { 0 < result }
    ensures in_range { result < 2 ^ 32 }
{
    3 * seats as usize + 8
}

/// A writer that shows the board of a core after the events of a list. It publishes two operations, and holds no more of them later:
/// so later ones find room.
pub fn opened_writer<W: Wait, D: Desk + Drop, L: Identity>(
    rt: &W,
    alloc: Global,
    core: &Core<D>,
    front: &Prefix<D, L>,
    seats: u32,
) -> Result<PostWriter<D, L>, NoMemory>
    requires seats { seats ≤ 64 }
    requires after { IsAfter D.tree L.limits front.now core.now }
    ensures { IfOk result (λ writer. IsPublished front.now writer.desk.shown.value.list (drop writer.behind writer.log.items) (view writer.desk.place)) }
{
    let first = post_of(board_after(core, front)?, front);
    let second = first.share()?;
    let third = board_after(core, front)?;
    let fourth = board_after(core, front)?;
    let writer = Writer::new(alloc, first, second, reader_places(seats))?;
    let writer = tried(rt, writer, third, front)?;
    tried(rt, writer, fourth, front)
}

/// The board of a core after the events of a list.
fn board_after<D: Desk + Drop, L: Identity>(
    core: &Core<D>,
    front: &Prefix<D, L>,
) -> Result<Board, NoMemory>
    requires { IsAfter D.tree L.limits front.now core.now }
    ensures { StatesEveryLayer D.tree → IfOk result (λ board. board ≡ board_of (trees_of D.tree) (state_of (trees_of D.tree) L.limits front.now)) }
{
    core.board()
}

/// Publishes the board of a list, unless memory runs out: then the writer is ended.
fn tried<W: Wait, D: Desk, L: Identity>(
    rt: &W,
    mut writer: PostWriter<D, L>,
    board: Board,
    front: &Prefix<D, L>,
) -> Result<PostWriter<D, L>, NoMemory>
    requires pending { drop writer.behind writer.log.items ≡ [] }
    requires longer { length writer.desk.shown.value.list ≤ length front.now }
    requires board { StatesEveryLayer D.tree → board ≡ board_of (trees_of D.tree) (state_of (trees_of D.tree) L.limits front.now) }
    ensures { IfOk result (λ writer. IsPublished front.now writer.desk.shown.value.list (drop writer.behind writer.log.items) (view writer.desk.place)) }
{
    match writer.append(post_of(board, front)) {
        Ok(()) => Ok(published(rt, writer, front)),
        Err(_) => {
            end_writer(rt, writer);
            Err(NoMemory)
        }
    }
}

/// Publishes the board of a list. It waits for those who read the board before the last one.
pub fn publish<W: Wait, D: Desk, L: Identity>(
    rt: &W,
    writer: PostWriter<D, L>,
    board: Board,
    front: &Prefix<D, L>,
) -> PostWriter<D, L>
    requires pending { drop writer.behind writer.log.items ≡ [] }
    requires longer { length writer.desk.shown.value.list ≤ length front.now }
    requires board { StatesEveryLayer D.tree → board ≡ board_of (trees_of D.tree) (state_of (trees_of D.tree) L.limits front.now) }
    ensures shown { result.desk.shown.value.list ≡ front.now }
    ensures pending { drop result.behind result.log.items ≡ [] }
    ensures known { view result.desk.place ≡ length front.now }
{
    let writer = appended(rt, writer, post_of(board, front));
    published(rt, writer, front)
}

/// The operation that shows the board of a list.
fn post_of<D: Desk, L: Identity>(board: Board, front: &Prefix<D, L>) -> Post
    requires { StatesEveryLayer D.tree → board ≡ board_of (trees_of D.tree) (state_of (trees_of D.tree) L.limits front.now) }
    ensures shows { Shows D.tree L.limits L.parts L.book result }
    ensures list { result.list ≡ front.now }
{
    let _facts = front.len();
    Post::of(board, front)
}

/// Appends an operation. It tries again while there is no memory for it.
fn appended<W: Wait, D: Desk, L: Identity>(
    rt: &W,
    mut writer: PostWriter<D, L>,
    mut post: Post,
) -> PostWriter<D, L>
    requires pending { drop writer.behind writer.log.items ≡ [] }
    ensures desk { result.desk ≡ writer.desk }
    ensures pending { drop result.behind result.log.items ≡ post ∷ [] }
{
    for _ in rt.forever() {
        match writer.append(post) {
            Ok(()) => return writer,
            Err(back) => post = back,
        }
    }
    unreachable!()
}

/// Publishes the operation that is pending. It tries again while a board cannot be shared.
fn published<W: Wait, D: Desk, L: Identity>(
    rt: &W,
    mut writer: PostWriter<D, L>,
    front: &Prefix<D, L>,
) -> PostWriter<D, L>
    requires { IsPending D.tree L.limits L.parts L.book front.now writer.desk.shown.value.list (drop writer.behind writer.log.items) }
    ensures shown { result.desk.shown.value.list ≡ front.now }
    ensures pending { drop result.behind result.log.items ≡ [] }
    ensures known { view result.desk.place ≡ length front.now }
{
    for _ in rt.forever() {
        let (next, end) = writer.publish_as::<Sees<D, L>, W>(rt);
        match end {
            Ok(()) => return next,
            Err(_) => writer = next,
        }
    }
    unreachable!()
}

/// A new reader that knows of what is published. It tries again while all places are in use.
pub fn told_one<W: Wait, D: Desk, L: Identity>(
    rt: &W,
    writer: &mut PostWriter<D, L>,
) -> PostReader<D, L>
    ensures known { view writer.old.desk.place ≤ view result.place }
    ensures shown { writer.new.desk.shown ≡ writer.old.desk.shown }
    ensures pending { drop writer.new.behind writer.new.log.items ≡ drop writer.old.behind writer.old.log.items }
    ensures same { view writer.new.desk.place ≡ view writer.old.desk.place }
{
    for _ in rt.forever() {
        if let Some(reader) = told(writer) {
            return reader;
        }
    }
    unreachable!()
}

/// Ends a writer. It waits for those who read.
pub fn end_writer<W: Wait, D: Desk, L: Identity>(rt: &W, writer: PostWriter<D, L>) {
    drop(writer.take(rt));
}
