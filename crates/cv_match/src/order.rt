ghost use Rattle.std.specs.Prelude.{◌≡◌, IfOk};
ghost use Rattle.std.specs.List.Sorted.{IsStrictlySortedBy};
ghost use Rattle.cv_base.specs.InOrder.{in_order};
ghost use Rattle.cv_match.specs.Findings.{finding_cmp, package_cmp};

use cv_base::{Finding, NoMemory, Package, Seq};
use std::alloc::Global;
use std::cmp::Ordering;
use std::collections::BTreeSet;

/// A finding that is compared by its package, its feed and the id of its advisory alone.
#[derive(Drop)]
pub struct KeyedFinding {
    pub finding: Finding,
}

impl PartialEq for KeyedFinding {
    ghost use Rattle.std.specs.Cmp.{eq_by_cmp_equiv, partial_equiv_from_equiv};
    ghost use Rattle.std.specs.Ordering.{eq_by_cmp};
    ghost use Rattle.cv_match.specs.code.Keyed.{keyed_cmp, keyed_total};

    ghost eq = { eq_by_cmp keyed_cmp };

    ghost laws = { partial_equiv_from_equiv (eq_by_cmp_equiv keyed_total) };

    fn eq(&self, other: &KeyedFinding) -> bool {
        self.cmp(other).is_eq()
    }
}

impl Eq for KeyedFinding {
    ghost use Rattle.std.specs.Cmp.{eq_by_cmp_equiv};
    ghost use Rattle.cv_match.specs.code.Keyed.{keyed_total};

    ghost laws = { eq_by_cmp_equiv keyed_total };
}

impl PartialOrd for KeyedFinding {
    ghost use Rattle.std.specs.Prelude.{Some, refl};
    ghost use Rattle.std.specs.Cmp.{partial_order_from_agreeing_total};
    ghost use Rattle.cv_match.specs.code.Keyed.{keyed_cmp, keyed_total};

    ghost partial_cmp = { λ x y. Some (keyed_cmp x y) };

    ghost laws = { partial_order_from_agreeing_total keyed_cmp keyed_total (λ x y. refl) (λ x y. refl) };

    fn partial_cmp(&self, other: &KeyedFinding) -> Option<Ordering> {
        Some(self.cmp(other))
    }
}

/// By package, then feed, then id of the advisory.
impl Ord for KeyedFinding {
    ghost use Rattle.std.specs.Prelude.{refl};
    ghost use Rattle.cv_match.specs.code.Keyed.{keyed_cmp, keyed_total};

    ghost cmp = { keyed_cmp };

    ghost total = { keyed_total };

    ghost matches_partial_cmp = { λ x y. refl };

    ghost matches_eq = { λ x y. refl };

    fn cmp(&self, other: &KeyedFinding) -> Ordering {
        let (one, two) = (&self.finding, &other.finding);
        compare_packages(&one.package, &two.package)
            .then_with(|| one.feed.cmp(&two.feed))
            .then_with(|| one.advisory.cmp(&two.advisory))
    }
}

/// How two packages stand in the order of findings: by their fields, the first one first.
pub fn compare_packages(one: &Package, other: &Package) -> Ordering
    ensures { result ≡ package_cmp one.now other.now }
{
    one.cmp(other)
}

/// Findings sorted by package, feed and id of the advisory, each once: of those that are the same by these three the last
/// one stays. The time is n log n in the findings.
pub fn in_order(alloc: Global, found: Vec<Finding>) -> Result<Seq<Finding>, NoMemory>
    ensures order { IfOk result (λ out. out ≡ in_order finding_cmp found.items) }
    ensures sorted { IfOk result (λ out. IsStrictlySortedBy finding_cmp out) }
{
    let ordered = put_in_order(alloc, found)?;
    Ok(Seq::of(ordered))
}

/// Sorts by a set. The last finding goes in first, and stays.
#[tactic(auto, using(cv_base::proofs::Ordered::put_last, cv_base::proofs::Ordered::put_none, crate::proofs::Keyed::put_seen))]
fn put_in_order(alloc: Global, mut found: Vec<Finding>) -> Result<Vec<Finding>, NoMemory>
    ensures { IfOk result (λ out. out.items ≡ in_order finding_cmp found.items) }
{
    let mut keyed = BTreeSet::new(alloc);
    while let Some(finding) = found.pop() {
        keyed.insert(KeyedFinding { finding })?;
    }
    let mut ordered = Vec::new(alloc);
    for next in keyed {
        ordered.push(next.finding)?;
    }
    Ok(ordered)
}
