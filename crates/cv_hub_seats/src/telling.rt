ghost use Rattle.std.specs.Prelude.{◌≡◌, ◌≤◌, drop, max, IfSome};
ghost use Rattle.left_right.specs.Sides.{view};

use crate::identity::Identity;
use crate::post::{PostReader, PostWriter};
use atomic_table::{Join, Split};
use cv_desk::Desk;
use std::sync::Wait;

/// Who tells keeps what it knows.
struct Twice;

impl Split<u64> for Twice {
    ghost left = { λ v. v };

    ghost right = { λ v. v };
}

/// Who is told knows the larger number.
struct Larger;

impl Join<u64> for Larger {
    ghost both = { max };

    ghost spent = { 0 };
}

/// A new reader that knows of what is published, unless all places are in use.
pub fn told<D: Desk, L: Identity>(writer: &mut PostWriter<D, L>) -> Option<PostReader<D, L>>
    ensures known { IfSome result (λ reader. view writer.old.desk.place ≤ view reader.place) }
    ensures shown { writer.new.desk.shown ≡ writer.old.desk.shown }
    ensures pending { drop writer.new.behind writer.new.log.items ≡ drop writer.old.behind writer.old.log.items }
    ensures same { view writer.new.desk.place ≡ view writer.old.desk.place }
{
    let Ok(mut reader) = writer.factory().reader() else {
        return None;
    };
    reader.learn::<Larger>(writer.tell::<Twice>());
    Some(reader)
}

/// A new reader, which knows nothing. It waits for a place.
pub fn seated<W: Wait, D: Desk, L: Identity>(
    rt: &W,
    writer: &PostWriter<D, L>,
) -> PostReader<D, L> {
    for _ in rt.forever() {
        if let Ok(reader) = writer.factory().reader() {
            return reader;
        }
    }
    unreachable!()
}
