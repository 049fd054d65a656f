ghost use Rattle.std.specs.Prelude.{◌≡◌, ℕ, Bool, true, false, List, []};
ghost use Rattle.std.specs.List.{All, list_any};
ghost use Rattle.std.specs.List.Sorted.{IsStrictlySortedBy};
ghost use Rattle.std.specs.Ordering.{is_eq};
ghost use Rattle.cv_base.specs.declared.advisory.Advisory.{Advisory};
ghost use Rattle.cv_base.specs.declared.finding.Finding.{Finding};
ghost use Rattle.cv_base.specs.declared.package.Package.{Package};
ghost use Rattle.cv_base.specs.declared.package.PackageName.{PackageName};
ghost use Rattle.cv_match.specs.Affects.{affects};
ghost use Rattle.cv_match.specs.Findings.{finding_cmp, findings, found, found_in, is_of_pair, pair_findings};
ghost use Rattle.cv_match.specs.Keys.{feeds_about, is_about, name_cmp};

/// The rule of the findings of an image. They are sorted by package, feed and id of the advisory, each once: `sorted`. A
/// finding of a pair has one among them that is the same by these three: `complete`. No other is among them: what holds of
/// the findings of all pairs holds of them, `sound`.
pub fn findings_laws()
    ensures sorted { (packages : List Package) (feeds : List (List ℕ × List Advisory)) → IsStrictlySortedBy finding_cmp (findings packages feeds) }
    ensures complete { (packages : List Package) (feeds : List (List ℕ × List Advisory)) (f : Finding) → list_any (is_of_pair f) (findings packages feeds) ≡ list_any (is_of_pair f) (pair_findings packages feeds) }
    ensures sound { (packages : List Package) (feeds : List (List ℕ × List Advisory)) (test : Finding → Bool) → All (λ f. test f ≡ true) (pair_findings packages feeds) → All (λ f. test f ≡ true) (findings packages feeds) }
{}

/// Why records are looked up by the keys of a package. A record that names none of them does not affect it, `unnamed`, and
/// gives no finding, `none`. So the findings of a package are those of the records that name one of its keys, `enough`. Two
/// names that the order of names has as one are equal, `names`.
pub fn key_laws()
    ensures unnamed { (p : Package) (a : Advisory) → is_about p a ≡ false → affects a p ≡ false }
    ensures none { (p : Package) (feed : List ℕ) (a : Advisory) → is_about p a ≡ false → found p feed a ≡ [] }
    ensures enough { (p : Package) (feeds : List (List ℕ × List Advisory)) → found_in (feeds_about p feeds) p ≡ found_in feeds p }
    ensures names { (x y : PackageName) → is_eq (name_cmp x y) ≡ true → x ≡ y }
{}
