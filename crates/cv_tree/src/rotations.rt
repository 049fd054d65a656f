ghost use Rattle.std.specs.Prelude.{◌≡◌, ◌+◌, ◌∷◌, ◌++◌, IfOk};
ghost use Rattle.cv_tree.specs.Nodes.{shape_of};
ghost use Rattle.cv_tree.specs.Shapes.{AreWithin, IsBalancedOver};

use crate::branch::{Branch, Fork};
use crate::share::Share;
use cv_base::NoMemory;
use std::alloc::Global;

impl<K: Share + Drop, V: Share + Drop> Branch<K, V> {
    /// The entries of two branches, with one between them. If the heights of the branches differ by two, rotations balance them.
    pub fn joined(
        alloc: Global,
        left: Branch<K, V>,
        key: K,
        value: V,
        right: Branch<K, V>,
    ) -> Result<Branch<K, V>, NoMemory>
        requires at_most_2 { AreWithin 2 left.height right.height }
        ensures entries { IfOk result (λ b. b.entries ≡ left.entries ++ (key, value) ∷ right.entries) }
        ensures height { IfOk result (λ b. IsBalancedOver left.height right.height b.height) }
    {
        if left.height() > right.height().saturating_add(1) {
            turned_right(alloc, &left, key, value, right)
        } else if right.height() > left.height().saturating_add(1) {
            turned_left(alloc, left, key, value, &right)
        } else {
            Branch::of(alloc, left, key, value, right)
        }
    }
}

/// The same with a left branch that is two higher: its top goes up, or the node right below the top, if that side is the higher.
fn turned_right<K: Share + Drop, V: Share + Drop>(
    alloc: Global,
    left: &Branch<K, V>,
    key: K,
    value: V,
    right: Branch<K, V>,
) -> Result<Branch<K, V>, NoMemory>
    requires two_higher { left.now.height ≡ right.height + 2 }
    ensures entries { IfOk result (λ b. b.entries ≡ left.now.entries ++ (key, value) ∷ right.entries) }
    ensures height { IfOk result (λ b. IsBalancedOver left.now.height right.height b.height) }
{
    let Some(top) = left.fork() else {
        unreachable!()
    };
    if top.left.height() < top.right.height() {
        return turned_twice_right(alloc, top, key, value, right);
    }
    let lower = Branch::of(alloc, top.right.share()?, key, value, right)?;
    Branch::of(
        alloc,
        top.left.share()?,
        top.key.share()?,
        top.value.share()?,
        lower,
    )
}

/// The same where the node right below the top of the left branch goes up, between both.
fn turned_twice_right<K: Share + Drop, V: Share + Drop>(
    alloc: Global,
    top: &Fork<K, V>,
    key: K,
    value: V,
    right: Branch<K, V>,
) -> Result<Branch<K, V>, NoMemory>
    requires outer { top.now.left.height ≡ right.height }
    requires inner { top.now.right.height ≡ right.height + 1 }
    ensures entries { IfOk result (λ b. b.entries ≡ (shape_of top.now).entries ++ (key, value) ∷ right.entries) }
    ensures height { IfOk result (λ b. b.height ≡ right.height + 2) }
{
    let Some(middle) = top.right.fork() else {
        unreachable!()
    };
    let outer = top.left.share()?;
    let before = Branch::of(
        alloc,
        outer,
        top.key.share()?,
        top.value.share()?,
        middle.left.share()?,
    )?;
    let after = Branch::of(alloc, middle.right.share()?, key, value, right)?;
    Branch::of(
        alloc,
        before,
        middle.key.share()?,
        middle.value.share()?,
        after,
    )
}

/// The same with a right branch that is two higher: its top goes up, or the node left below the top, if that side is the higher.
fn turned_left<K: Share + Drop, V: Share + Drop>(
    alloc: Global,
    left: Branch<K, V>,
    key: K,
    value: V,
    right: &Branch<K, V>,
) -> Result<Branch<K, V>, NoMemory>
    requires two_higher { right.now.height ≡ left.height + 2 }
    ensures entries { IfOk result (λ b. b.entries ≡ left.entries ++ (key, value) ∷ right.now.entries) }
    ensures height { IfOk result (λ b. IsBalancedOver left.height right.now.height b.height) }
{
    let Some(top) = right.fork() else {
        unreachable!()
    };
    if top.right.height() < top.left.height() {
        return turned_twice_left(alloc, left, key, value, top);
    }
    let lower = Branch::of(alloc, left, key, value, top.left.share()?)?;
    Branch::of(
        alloc,
        lower,
        top.key.share()?,
        top.value.share()?,
        top.right.share()?,
    )
}

/// The same where the node left below the top of the right branch goes up, between both.
fn turned_twice_left<K: Share + Drop, V: Share + Drop>(
    alloc: Global,
    left: Branch<K, V>,
    key: K,
    value: V,
    top: &Fork<K, V>,
) -> Result<Branch<K, V>, NoMemory>
    requires outer { top.now.right.height ≡ left.height }
    requires inner { top.now.left.height ≡ left.height + 1 }
    ensures entries { IfOk result (λ b. b.entries ≡ left.entries ++ (key, value) ∷ (shape_of top.now).entries) }
    ensures height { IfOk result (λ b. b.height ≡ left.height + 2) }
{
    let Some(middle) = top.left.fork() else {
        unreachable!()
    };
    let outer = top.right.share()?;
    let before = Branch::of(alloc, left, key, value, middle.left.share()?)?;
    let after = Branch::of(
        alloc,
        middle.right.share()?,
        top.key.share()?,
        top.value.share()?,
        outer,
    )?;
    Branch::of(
        alloc,
        before,
        middle.key.share()?,
        middle.value.share()?,
        after,
    )
}
