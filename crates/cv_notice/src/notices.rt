ghost use Rattle.std.specs.Prelude.{◌≡◌, ◌<◌, ◌≤◌, [], ◌∷◌, ◌++◌, None, All, length, is_ok, is_some, IfOk, OnErr, OnOk, MatchOption};
ghost use Rattle.std.specs.Map.{keys_of};
ghost use Rattle.std.specs.Option.{option_map};
ghost use Rattle.std.specs.Ordering.{nat_cmp};
ghost use Rattle.cv_core_records.specs.Pages.{heads, page_of};
ghost use Rattle.cv_tree.specs.Entries.{at, without_key};
ghost use Rattle.cv_notice.specs.Pages.{shown};
ghost use Rattle.cv_notice.specs.code.Places.{HasNumber};

use crate::error::{NoNotification, PageError};
use crate::pages::{Page, page_of};
use cv_base::{NoMemory, Row, Seq};
use cv_core_records::NoticeHead;
use cv_tree::{Share, Shared};
use std::alloc::Global;
use std::marker::Model;

/// The notifications that are not acknowledged. Contracts see them as pairs of a number and the rows, in ascending order
/// of the numbers, which is the order in which they were added.
pub struct Notices {
    inner: Vec<(u64, Shared<Seq<Row>>)>,
}

/// Written out, so that the crates above call it, and do not prove anew how each part is dropped.
impl Drop for Notices {
    fn drop(self) {
        let Notices { inner: _ } = self;
    }
}

impl Model for Notices {
    ghost use Rattle.std.specs.Prelude.{ℕ, List};
    ghost use Rattle.std.specs.Ordering.{nat_cmp};
    ghost use Rattle.cv_base.specs.declared.finding.Row.{Row};
    ghost use Rattle.cv_tree.specs.Entries.{IsAscending};

    ghost Value = { List (ℕ × List Row) };

    ghost view = { λ n. n.inner.items };

    ghost invariant = { λ n. IsAscending nat_cmp n.inner.items };
}

impl Notices {
    /// No notification. It takes no memory.
    pub fn new(alloc: Global) -> Notices
        ensures { result ≡ [] }
    {
        Notices {
            inner: Vec::new(alloc),
        }
    }

    /// Adds a notification after the others.
    pub fn add(&mut self, alloc: Global, number: u64, rows: Seq<Row>) -> Result<(), NoMemory>
        requires rows { 0 < length rows }
        requires above { All (λ other. other < number) (keys_of self.old) }
        ensures ok { OnOk result (self.new ≡ self.old ++ (number, rows) ∷ []) }
        ensures err { OnErr result (self.new ≡ self.old) }
    {
        let rows = Shared::of(alloc, rows)?;
        self.inner.push((number, rows))?;
        Ok(())
    }

    /// Page `page` of the notification `number`, in pages of `size` rows. Pages are numbered from 1. It takes no memory.
    pub fn page(&self, number: u64, size: u64, page: u64) -> Result<Page<'_>, PageError>
        requires size { 1 ≤ size }
        requires page { 1 ≤ page }
        ensures { shown result ≡ page_of self.now number size page }
    {
        match self.rows_of(number) {
            None => Err(PageError::NoNotification),
            Some(rows) => page_of(rows, size, page),
        }
    }

    /// Removes a notification, and no other. It takes no memory.
    pub fn ack(&mut self, number: u64) -> Result<(), NoNotification>
        ensures ok { is_ok result ≡ is_some (at nat_cmp self.old number) }
        ensures gone { OnOk result (self.new ≡ without_key nat_cmp self.old number) }
        ensures err { OnErr result (self.new ≡ self.old) }
    {
        let Some(index) = self.index_of(number) else {
            return Err(NoNotification);
        };
        let _ = self.inner.remove(index);
        Ok(())
    }

    /// All notifications in ascending order of their numbers, with how many rows each has.
    pub fn list(&self, alloc: Global) -> Result<Seq<NoticeHead>, NoMemory>
        ensures { IfOk result (λ list. list ≡ heads self.now) }
    {
        let mut heads = Vec::new(alloc);
        for notice in &self.inner {
            heads.push(head_of(notice))?;
        }
        Ok(Seq::of(heads))
    }

    /// The same notifications, which share the rows.
    pub fn copy(&self) -> Result<Notices, NoMemory>
        ensures { IfOk result (λ copy. copy ≡ self.now) }
    {
        let mut inner = Vec::new(*self.inner.allocator());
        for notice in &self.inner {
            inner.push((notice.0, notice.1.share()?))?;
        }
        Ok(Notices { inner })
    }

    /// The rows of a notification.
    fn rows_of(&self, number: u64) -> Option<&[Row]>
        ensures { option_map (λ rows. rows.now) result ≡ at nat_cmp self.now number }
    {
        let index = self.index_of(number)?;
        let notice = &self.inner[index];
        Some(notice.1.value().as_slice())
    }

    /// Where a notification stands.
    fn index_of(&self, number: u64) -> Option<usize>
        ensures { MatchOption result (at nat_cmp self.now number ≡ None) (HasNumber self.now number) }
    {
        self.inner
            .binary_search_by_key(&number, |notice| notice.0)
            .ok()
    }
}

fn head_of(notice: &(u64, Shared<Seq<Row>>)) -> NoticeHead
    ensures { result ≡ record { number = notice.now.0; rows = length notice.now.1 } }
{
    NoticeHead {
        number: notice.0,
        rows: notice.1.value().as_slice().len() as u64,
    }
}
