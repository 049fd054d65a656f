ghost use Rattle.std.specs.Prelude.{◌≡◌, ℕ, false, List};
ghost use Rattle.std.specs.BTreeMap.{insert_entry};
ghost use Rattle.std.specs.List.Sorted.{IsStrictlySortedBy};
ghost use Rattle.std.specs.Map.{keys_of};
ghost use Rattle.cv_base.specs.declared.advisory.Advisory.{Advisory};
ghost use Rattle.cv_base.specs.declared.package.Package.{Package};
ghost use Rattle.cv_base.specs.declared.package.PackageName.{PackageName};
ghost use Rattle.cv_match.specs.Findings.{found_in, text_cmp};
ghost use Rattle.cv_advdb.specs.Feeds.{id_cmp, records_of};
ghost use Rattle.cv_advdb.specs.Touched.{IsTouched, is_touched};

/// What the touched keys are good for. A package without a touched key has the same findings after the records of a feed are
/// replaced as before it, `findings`. There is one list of touched keys, `unique`.
pub fn touched_laws()
    ensures findings { (p : Package) (feeds : List (List ℕ × List Advisory)) (name : List ℕ) (after : List Advisory) (touched : List PackageName)
        → IsStrictlySortedBy text_cmp (keys_of feeds) → IsStrictlySortedBy id_cmp (records_of name feeds) → IsStrictlySortedBy id_cmp after
        → IsTouched (records_of name feeds) after touched → is_touched touched p ≡ false → found_in (insert_entry text_cmp feeds name after) p ≡ found_in feeds p }
    ensures unique { (before after : List Advisory) (ones twos : List PackageName) → IsTouched before after ones → IsTouched before after twos → ones ≡ twos }
{}
