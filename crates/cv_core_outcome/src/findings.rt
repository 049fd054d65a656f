ghost use Rattle.std.specs.Prelude.{◌≡◌, IfOk};
ghost use Rattle.std.specs.List.Sorted.{IsStrictlySortedBy};
ghost use Rattle.cv_match.specs.Findings.{finding_cmp};

use cv_base::{Finding, NoMemory, Seq};
use cv_tree::{Share, Shared};
use std::alloc::Global;
use std::marker::Model;

/// The findings of an image, sorted by package, feed and id of the advisory, each once. Copies share them.
#[derive(Drop)]
pub struct Findings {
    inner: Shared<Seq<Finding>>,
}

impl Model for Findings {
    ghost use Rattle.std.specs.Prelude.{List};
    ghost use Rattle.std.specs.List.Sorted.{IsStrictlySortedBy};
    ghost use Rattle.cv_base.specs.declared.finding.Finding.{Finding};
    ghost use Rattle.cv_match.specs.Findings.{finding_cmp};

    ghost Value = { List Finding };

    ghost view = { λ f. f.inner };

    ghost invariant = { λ f. IsStrictlySortedBy finding_cmp f.inner };
}

impl Findings {
    pub(crate) fn of(alloc: Global, found: Seq<Finding>) -> Result<Findings, NoMemory>
        requires { IsStrictlySortedBy finding_cmp found }
        ensures { IfOk result (λ findings. findings ≡ found) }
    {
        Ok(Findings {
            inner: Shared::of(alloc, found)?,
        })
    }

    /// The findings.
    pub fn seq(&self) -> &Seq<Finding>
        ensures { result.now ≡ self.now }
    {
        self.inner.value()
    }

    /// The findings, as a slice.
    pub fn as_slice(&self) -> &[Finding]
        ensures { result.now ≡ self.now }
    {
        self.inner.value().as_slice()
    }

    /// The findings are sorted. For proofs: it has no effect at run time.
    pub fn sorted_law(&self)
        ensures { IsStrictlySortedBy finding_cmp self.now }
    {
        let _inner = &self.inner;
    }
}

/// A copy is equal to its source and shares the findings. It takes no memory, and fails only if their number of owners is at its
/// limit.
impl Share for Findings {
    fn share(&self) -> Result<Findings, NoMemory> {
        Ok(Findings {
            inner: self.inner.share()?,
        })
    }
}
