ghost use Rattle.std.specs.Prelude.{◌≡◌, ◌<◌, ◌≤◌, ℕ, List, length};
ghost use Rattle.std.specs.List.{flat_map, range_with_len};
ghost use Rattle.cv_base.specs.declared.finding.Row.{Row};
ghost use Rattle.cv_core_records.specs.Pages.{page_count, page_in, page_rows};
ghost use Rattle.cv_notice.specs.Pages.{shown};

use crate::error::PageError;
use cv_base::Row;

/// A page of a notification: its rows, and how many pages there are.
#[derive(Clone, Copy, Debug)]
pub struct Page<'a> {
    pub pages: u64,
    pub rows: &'a [Row],
}

/// Page `page` of these rows, in pages of `size` rows. Pages are numbered from 1.
pub fn page_of(rows: &[Row], size: u64, page: u64) -> Result<Page<'_>, PageError>
    requires size { 1 ≤ size }
    requires page { 1 ≤ page }
    ensures { shown result ≡ page_in rows.now size page }
{
    let count = rows.len() as u64;
    let pages = count.div_ceil(size);
    if pages < page {
        return Err(PageError::NoPage { pages });
    }
    let start = (page - 1) * size;
    let end = start + size.min(count - start);
    Ok(Page {
        pages,
        rows: &rows[start as usize..end as usize],
    })
}

/// The pages of rows, one after the other, are all rows. Each but the last has as many rows as the size says, and the
/// last has at least one.
pub fn page_laws()
    ensures whole { (rows : List Row) (size : ℕ) → 1 ≤ size → flat_map (λ page. page_rows size page rows) (range_with_len 1 (page_count size rows)) ≡ rows }
    ensures full { (rows : List Row) (size page : ℕ) → 1 ≤ size → 1 ≤ page → page < page_count size rows → length (page_rows size page rows) ≡ size }
    ensures not_empty { (rows : List Row) (size page : ℕ) → 1 ≤ size → 1 ≤ page → page ≤ page_count size rows → 0 < length (page_rows size page rows) }
{}
