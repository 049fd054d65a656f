ghost use Rattle.std.specs.Prelude.{◌≡◌, ◌∷◌, [], ℕ, false, true, List};
ghost use Rattle.std.specs.declared.cmp.Ordering.TheVariants.{Equal};
ghost use Rattle.cv_base.specs.declared.advisory.Advisory.{Advisory};
ghost use Rattle.std.specs.List.Sorted.{IsStrictlySortedBy};
ghost use Rattle.cv_base.specs.declared.finding.Finding.{Finding};
ghost use Rattle.cv_base.specs.declared.package.Package.{Package};
ghost use Rattle.cv_base.specs.declared.package.PackageName.{PackageName};
ghost use Rattle.cv_match.specs.Findings.{finding_cmp, findings, package_cmp};
ghost use Rattle.cv_findings.specs.Pairs.{FeedList};
ghost use Rattle.cv_findings.specs.Parts.{has_package, part_of};
ghost use Rattle.cv_findings.specs.Rematch.{AgreeOnUntouched, any_touched, rematched};
ghost use Rattle.cv_findings.specs.Rows.{rows_of};

/// Why packages can be matched again one by one. Among the findings of packages, those of one of them are its findings alone:
/// `own`. There are none of another package: `none`. Packages that their order has as one are equal: `packages`.
pub fn part_laws()
    ensures own { (p : Package) (packages : List Package) (feeds : List (List ℕ × List Advisory)) → has_package p packages ≡ true → part_of p (findings packages feeds) ≡ findings (p ∷ []) feeds }
    ensures none { (p : Package) (packages : List Package) (feeds : List (List ℕ × List Advisory)) → has_package p packages ≡ false → part_of p (findings packages feeds) ≡ [] }
    ensures packages { (p q : Package) → package_cmp p q ≡ Equal → p ≡ q }
{}

/// Why only packages with a touched key are matched again. If packages without one have the same findings with the feeds before and
/// after, the findings made so are those with the feeds after, `findings`. So are those before, if no package has a touched key,
/// `untouched`: they stay then, `kept`, and nothing is told of them, `unchanged`.
pub fn rematch_laws()
    ensures findings { (touched : List PackageName) (before after : FeedList) (packages : List Package) → AgreeOnUntouched touched before after → rematched touched after packages (findings packages before) ≡ findings packages after }
    ensures untouched { (touched : List PackageName) (before after : FeedList) (packages : List Package) → AgreeOnUntouched touched before after → any_touched touched packages ≡ false → findings packages after ≡ findings packages before }
    ensures kept { (touched : List PackageName) (after : FeedList) (packages : List Package) (before : List Finding) → any_touched touched packages ≡ false → rematched touched after packages before ≡ before }
    ensures unchanged { (image : List ℕ) (found : List Finding) → IsStrictlySortedBy finding_cmp found → rows_of image found found ≡ [] }
{}
