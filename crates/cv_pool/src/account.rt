use crate::task::Task;
use crossbeam_deque::protocol::{Join, Lesson, Outcome, Protocol, Split};
use std::collections::LinkedList;

/// What the holder of a pass knows of a deque: its shares of the right to know the whole, the tasks that were added, the
/// jobs that it took, and how many marks it took. No value of it is made.
pub struct Account {
    pub shares: u64,
    pub pushed: LinkedList<Task>,
    pub taken: LinkedList<u32>,
    pub ended: u64,
}

/// The rule of a deque: each task that was added is in it or was taken once.
pub struct EachOnce;

impl Protocol<Task, Account> for EachOnce {
    ghost use Rattle.std.specs.Prelude.{[]};
    ghost use Rattle.cv_pool.specs.code.Accounts.{account, EachTaskOnce};

    ghost holds = { EachTaskOnce };

    ghost first = { account 9 [] [] 0 };

    ghost guest = { account 0 [] [] 0 };
}

/// A task was added.
pub struct Added;

impl Outcome<Task, Account> for Added {
    ghost use Rattle.std.specs.Prelude.{◌≡◌};
    ghost use Rattle.cv_pool.specs.code.Accounts.{with_pushed};

    ghost then = { λ v xs w. w ≡ with_pushed v xs };
}

/// A task was taken. An account with a share for a mark that it has not taken never finds a filled deque empty.
pub struct Taking;

impl Outcome<Task, Account> for Taking {
    ghost use Rattle.std.specs.Prelude.{◌≡◌, ◌<◌};
    ghost use Rattle.cv_pool.specs.code.Tasks.{marks};
    ghost use Rattle.cv_pool.specs.code.Accounts.{with_taken, IsWithin};

    ghost then = { λ v xs w. (w ≡ with_taken v xs) × IsWithin w };

    ghost empty = { λ v. marks v.pushed ≡ 9 → v.ended < v.shares → ⊥ };
}

/// A share for a hand, which comes back at the end.
pub struct Share;

impl Split<Account> for Share {
    ghost use Rattle.std.specs.Prelude.{◌-◌, []};
    ghost use Rattle.cv_pool.specs.code.Accounts.{account};

    ghost left = { λ v. account (v.shares - 1) v.pushed v.taken v.ended };

    ghost right = { λ v. account 1 v.pushed [] 0 };
}

impl Join<Account> for Share {
    ghost use Rattle.std.specs.Prelude.{[]};
    ghost use Rattle.cv_pool.specs.code.Accounts.{account, both};

    ghost both = { both };

    ghost spent = { account 0 [] [] 0 };
}

/// An account with all shares knows what was taken.
pub struct Settled;

impl Lesson<Task, Account> for Settled {
    ghost use Rattle.std.specs.Prelude.{◌<◌};
    ghost use Rattle.cv_pool.specs.code.Accounts.{IsWithin, HasAll};

    ghost fact = { λ v items. IsWithin v × (0 < v.ended → HasAll v) };
}
