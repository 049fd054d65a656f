ghost use Rattle.std.specs.Prelude.{◌≡◌};
ghost use Rattle.std.specs.List.Sorted.{IsStrictlySortedBy};
ghost use Rattle.std.proofs.lemmas.Map.Keys.{IsStrictlySortedBy-prop};
ghost use Rattle.cv_match.specs.Keys.{name_cmp};

use cv_base::{PackageName, Seq};

/// The names, as advisories have them, of the packages that a replacement or a patch may concern, sorted by ecosystem and then by
/// name, each once.
#[derive(Debug, PartialEq, Eq, Drop)]
pub struct Touched {
    pub keys: Seq<PackageName>,
    ghost sorted: { IsStrictlySortedBy name_cmp keys } by { IsStrictlySortedBy-prop name_cmp keys },
}
