use cv_tree::Tree;
use std::test::Fail;

/// The key that is inserted at a step of an order of 1,000 keys, from both ends in turn.
fn from_both_ends(index: u64) -> u64 {
    if index % 2 == 0 {
        index / 2
    } else {
        1_000u64.saturating_sub(index / 2)
    }
}

/// An AVL tree of height 15 has at least 1,596 nodes.
#[test]
fn trees_stay_balanced(rt: HostRuntime) -> Result<(), Fail> {
    for (step, order) in [(1, "ascending"), (1_008, "descending"), (77, "scattered")] {
        let mut tree = Tree::new();
        for index in 0..1_000u64 {
            let next = tree.set(rt.alloc(), index.wrapping_mul(step) % 1_009, ())?;
            tree = next;
        }
        assert!(rt; tree.height() <= 14, "1,000 {order} keys");
    }
    Ok(())
}

/// Each key goes between the two before it, so that the higher branch of a higher branch is the inner one.
#[test]
fn trees_of_keys_in_zigzag_stay_balanced(rt: HostRuntime) -> Result<(), Fail> {
    let mut tree = Tree::new();
    for index in 0..1_000u64 {
        let next = tree.set(rt.alloc(), from_both_ends(index), ())?;
        tree = next;
    }
    assert!(rt; tree.height() <= 14, "the height");
    Ok(())
}
