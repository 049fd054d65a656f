ghost use Rattle.std.specs.Prelude.{◌≡◌, ◌+◌, ◌≤◌, ◌++◌, ℕ, List, unwrap_or, IfOk, OnOk};

use cv_base::NoMemory;
use std::alloc::Global;

/// What becomes of each value of a tree: a new value, rows that it adds to a list, and what it costs by a tally.
pub trait Remake<K, V> {
    type Row;

    type Tally;

    /// The value that a value under a key becomes.
    ghost made: { Self → K → V → V };

    /// The rows that a value under a key adds.
    ghost added: { Self → K → V → List Self.Row };

    /// What the making costs at most.
    ghost cost: { Self → K → V → ℕ };

    /// The costs in a tally.
    ghost costs: { Self.Tally → ℕ };

    /// The new value, or None if the value stays as it is.
    fn remake(
        &self,
        alloc: Global,
        key: &K,
        old: &V,
        rows: &mut Vec<Self::Row>,
        tally: &mut Self::Tally,
    ) -> Result<Option<V>, NoMemory>
        ensures value { IfOk result (λ new. unwrap_or new old.now ≡ made self.now key.now old.now) }
        ensures rows { OnOk result (rows.new.items ≡ rows.old.items ++ added self.now key.now old.now) }
        ensures counted { costs tally.new ≤ costs tally.old + cost self.now key.now old.now };
}
