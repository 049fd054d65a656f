ghost use Rattle.std.specs.Prelude.{◌≡◌, ◌↔◌, IsTrue};

use cv_base::{Advisory, Affected, Range, Seq, Text, Turn};

/// A test of equality in every part.
pub trait Same {
    /// Whether two values are equal.
    fn same(&self, other: &Self) -> bool
        ensures { IsTrue result ↔ self.now ≡ other.now };
}

impl Same for Text {
    fn same(&self, other: &Text) -> bool {
        *self == *other
    }
}

impl Same for Turn {
    fn same(&self, other: &Turn) -> bool {
        *self == *other
    }
}

impl<T: Same> Same for Seq<T> {
    fn same(&self, other: &Seq<T>) -> bool {
        same_items(self.as_slice(), other.as_slice())
    }
}

fn same_items<T: Same>(left: &[T], right: &[T]) -> bool
    ensures { IsTrue result ↔ left.now ≡ right.now }
{
    let (mut lefts, mut rights) = (left, right);
    while let [one, ones @ ..] = lefts {
        let [two, twos @ ..] = rights else {
            return false;
        };
        if !one.same(two) {
            return false;
        }
        lefts = ones;
        rights = twos;
    }
    rights.is_empty()
}

impl Same for Range {
    fn same(&self, other: &Range) -> bool {
        self.kind == other.kind && self.turns.same(&other.turns)
    }
}

impl Same for Affected {
    fn same(&self, other: &Affected) -> bool {
        self.package == other.package
            && self.ranges.same(&other.ranges)
            && self.versions.same(&other.versions)
    }
}

impl Same for Advisory {
    fn same(&self, other: &Advisory) -> bool {
        self.id.same(&other.id)
            && self.modified.same(&other.modified)
            && self.withdrawn == other.withdrawn
            && self.affected.same(&other.affected)
    }
}
