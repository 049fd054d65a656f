//! Items in ascending order.
ghost use Rattle.std.specs.Prelude.{◌≡◌, IfOk};
ghost use Rattle.cv_base.specs.InOrder.{in_order};

use cv_seq::NoMemory;
use std::alloc::Global;
use std::collections::BTreeSet;

/// Items in ascending order: of those that compare equal the last one stays. The time is n log n in the items.
#[tactic(auto, using(crate::proofs::Ordered::put_last, crate::proofs::Ordered::put_none))]
pub fn in_order<T: Ord + Drop>(alloc: Global, mut items: Vec<T>) -> Result<Vec<T>, NoMemory>
    ensures { IfOk result (λ out. out.items ≡ in_order T.cmp items.items) }
{
    let mut sorted = BTreeSet::new(alloc);
    while let Some(item) = items.pop() {
        sorted.insert(item)?;
    }
    let mut out = Vec::new(alloc);
    for item in sorted {
        out.push(item)?;
    }
    Ok(out)
}
