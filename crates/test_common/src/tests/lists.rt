use cv_base::{Seq, Text};
use std::alloc::Global;
use std::test::Fail;

#[derive(Clone, Debug, PartialEq, Eq, PartialOrd, Ord, Drop)]
struct Range {
    turns: Seq<Text>,
}

#[derive(Clone, Debug, PartialEq, Eq, PartialOrd, Ord, Drop)]
struct Affected {
    ranges: Seq<Range>,
    withdrawn: bool,
}

fn sent<T: Send + Sync>(value: T) -> T {
    value
}

fn sample(alloc: Global, turn: &str) -> Result<Affected, Fail> {
    let turns = Seq::of(vec![in alloc; Text::of(alloc, turn)?]?);
    let ranges = Seq::of(vec![in alloc; Range { turns }]?);
    Ok(Affected {
        ranges,
        withdrawn: false,
    })
}

#[test]
fn a_list_is_kept(rt: HostRuntime) -> Result<(), Fail> {
    let items = sent(Seq::of([1u8, 2].to_vec(rt.alloc())?));
    let is_kept = items.as_slice() == [1u8, 2].as_slice();
    assert!(rt; is_kept && items.into_vec().as_slice() == [1u8, 2].as_slice());
    Ok(())
}

#[test]
fn lists_in_structs_are_copied_and_ordered(rt: HostRuntime) -> Result<(), Fail> {
    let alloc = rt.alloc();
    let first = sent(sample(alloc, "1.0")?);
    let second = sample(alloc, "1.0.1")?;
    assert!(rt; first.clone()? == first && first < second);
    Ok(())
}
