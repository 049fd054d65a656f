ghost use Rattle.std.specs.Prelude.{◌≤◌};

use cv_base::{Digest, Finding, NoMemory, Package, PackageKind, Reason, RelPath, Row, Seq, Text};
use cv_notice::{NoNotification, NoticeHead, Notices, Page, PageError};
use std::alloc::Global;
use std::test::Fail;

fn is_shared<T: Send + Sync>() {}

#[test]
fn notices_are_shared_by_threads() {
    is_shared::<(Notices, NoticeHead, NoNotification, PageError)>();
    is_shared::<Page<'static>>();
}

/// The row of an image whose digest begins with this byte.
fn row(alloc: Global, image: u8) -> Result<Row, NoMemory> {
    let text = Text::of(alloc, "curl")?;
    let package = Package {
        kind: PackageKind::Deb,
        path: RelPath::top(),
        name: text.clone()?,
        version: text.clone()?,
        source: text.clone()?,
        source_version: text.clone()?,
        arch: text.clone()?,
        ecosystem: text.clone()?,
    };
    let finding = Finding {
        package,
        feed: text.clone()?,
        advisory: text,
        fixed: None,
    };
    Ok(Row {
        image: Digest::of([image; 32]),
        reason: Reason::Added,
        finding,
    })
}

fn rows(alloc: Global, images: &[u8]) -> Result<Seq<Row>, NoMemory> {
    let mut rows = Vec::new(alloc);
    for image in images {
        rows.push(row(alloc, *image)?)?;
    }
    Ok(Seq::of(rows))
}

/// How many pages of two rows the first notification has, and how many rows this page has.
fn counts_at(notices: &Notices, page: u64) -> Option<(u64, usize)>
    requires { 1 ≤ page }
{
    match notices.page(1, 2, page) {
        Ok(page) => Some((page.pages, page.rows.len())),
        Err(_) => None,
    }
}

#[test]
fn five_rows_have_three_pages(rt: HostRuntime) -> Result<(), Fail> {
    let mut notices = Notices::new(rt.alloc());
    let rows = rows(rt.alloc(), &[1, 2, 3, 4, 5])?;
    assert!(rt; !rows.as_slice().is_empty());
    notices.add(rt.alloc(), 1, rows)?;
    assert_eq!(rt; counts_at(&notices, 1), Some((3, 2)));
    assert_eq!(rt; counts_at(&notices, 2), Some((3, 2)));
    assert_eq!(rt; counts_at(&notices, 3), Some((3, 1)));
    assert!(rt; matches!(notices.page(1, 2, 4), Err(PageError::NoPage { pages: 3 })));
    assert!(rt;
        matches!(
            notices.page(1, u64::MAX, u64::MAX),
            Err(PageError::NoPage { pages: 1 })
        )
    );
    assert!(rt; matches!(notices.page(2, 2, 1), Err(PageError::NoNotification)));
    Ok(())
}

#[test]
fn an_acknowledgement_removes_one(rt: HostRuntime) -> Result<(), Fail> {
    let mut notices = Notices::new(rt.alloc());
    let first = rows(rt.alloc(), &[1])?;
    assert!(rt; !first.as_slice().is_empty());
    notices.add(rt.alloc(), 1, first)?;
    let copy = notices.copy()?;
    assert!(rt; notices.ack(1).is_ok());
    assert!(rt; notices.ack(1).is_err());
    assert!(rt; notices.list(rt.alloc())?.as_slice().is_empty());
    let heads = copy.list(rt.alloc())?;
    assert_eq!(rt;
        heads.as_slice(),
        [NoticeHead { number: 1, rows: 1 }].as_slice()
    );
    Ok(())
}
