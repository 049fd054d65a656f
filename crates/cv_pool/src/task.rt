use crate::account::{Account, EachOnce};
use crossbeam_deque::{Stealer, Worker};
use std::alloc::Global;

/// How many marks each deque has, and how many shares of the right to know the whole: one for each hand, and one more.
pub const MARKS: u64 = 9;

/// What stands in a deque: jobs, and after them marks of the end. A hand that takes a mark knows that no job remains.
#[derive(Clone, Copy)]
pub enum Task {
    Job(u32),
    End,
}

/// A deque's own side: it adds the tasks, and settles the accounts at the end.
pub type Owner = Worker<Task, Global, Account, EachOnce>;

/// A deque's other side, at which hands take tasks.
pub type Thief = Stealer<Task, Global, Account, EachOnce>;
