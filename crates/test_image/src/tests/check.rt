use cv_base::{Kind, ListEntry, RelPath};
use cv_overlay::{TreeFault, check_tree};
use std::alloc::Global;
use std::test::Fail;

fn listing(alloc: Global, rows: &[(&str, Kind)]) -> Result<Vec<ListEntry>, Fail> {
    let mut entries = Vec::new(alloc);
    for (text, kind) in rows {
        let path = RelPath::read(alloc, text)?;
        entries.push(ListEntry {
            path,
            kind: *kind,
            size: 0,
        })?;
    }
    Ok(entries)
}

#[test]
fn the_first_fault_is_returned(rt: HostRuntime) -> Result<(), Fail> {
    let cases: [(&str, &[(&str, Kind)], Result<(), TreeFault>); 5] = [
        (
            "a parent is found past deeper entries",
            &[
                (".wh..wh.plnk", Kind::Dir),
                (".wh..wh.plnk/7", Kind::File),
                ("a", Kind::Dir),
                ("a/b", Kind::Dir),
                ("a/b/c", Kind::File),
                ("a/d", Kind::Other),
                ("a-b", Kind::File),
            ],
            Ok(()),
        ),
        (
            "a parent that is a file",
            &[("a", Kind::File), ("a/b", Kind::File)],
            Err(TreeFault::NoParent(1)),
        ),
        (
            "not sorted",
            &[("b", Kind::Dir), ("a", Kind::Dir)],
            Err(TreeFault::Unsorted(1)),
        ),
        (
            "a mark without a name",
            &[(".wh.", Kind::File)],
            Err(TreeFault::BadMark(0)),
        ),
        (
            "a mark that is a directory",
            &[(".wh.x", Kind::Dir)],
            Err(TreeFault::BadMark(0)),
        ),
    ];
    for (what, rows, want) in cases {
        assert_eq!(rt; check_tree(&listing(rt.alloc(), rows)?), want, "{what}");
    }
    Ok(())
}
