use cv_base::Digest;
use cv_core::{Board, Core, Planned};
use cv_desk::{Desk, Table, TableDesk, TableEntry};

/// A table without layers.
struct Nothing;

impl Table for Nothing {
    ghost use Rattle.std.specs.Prelude.{None};

    ghost rows = { λ _. None };

    fn layer(_digest: &Digest) -> Option<&'static [TableEntry]> {
        None
    }
}

/// Only a type that threads may share is one for which this can be called.
fn is_shared<T: Send + Sync>() {}

/// It holds for all desks that threads may share.
fn core_is_shared<D: Desk + Send + Sync>() {
    is_shared::<Core<D>>();
}

/// It holds for all desks that threads may share.
fn plan_is_shared<D: Desk + Send + Sync>() {
    is_shared::<Planned<D>>();
}

#[test]
fn threads_may_share_a_core() {
    core_is_shared::<TableDesk<Nothing>>();
}

#[test]
fn threads_may_share_a_plan() {
    plan_is_shared::<TableDesk<Nothing>>();
}

#[test]
fn threads_may_share_a_board() {
    is_shared::<Board>();
}
