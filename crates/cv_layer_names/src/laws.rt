ghost use Rattle.std.specs.Prelude.{◌≡◌, ℕ, true, false, List, Option};
ghost use Rattle.std.specs.List.{AllByRecursion, list_any};
ghost use Rattle.std.specs.List.Sorted.{IsStrictlySortedBy};
ghost use Rattle.cv_base.specs.declared.package.Package.{Package};
ghost use Rattle.cv_base.specs.declared.package.PackageName.{PackageName};
ghost use Rattle.cv_coalesce.specs.Coalesced.{coalesced};
ghost use Rattle.cv_coalesce.specs.declared.image.ImagePackages.TheVariants.{Good};
ghost use Rattle.cv_facts.specs.declared.reduction.Shape.{Shape};
ghost use Rattle.cv_layer_names.specs.Names.{has_key_of, has_name_of, layer_names, some_layer_has};
ghost use Rattle.cv_match.specs.Affects.{key_name};
ghost use Rattle.cv_match.specs.Findings.{text_cmp};
ghost use Rattle.cv_match.specs.Keys.{keys_of};

/// What the names of layers are good for. They are sorted, each once: `sorted`. Each package of an image has its name among
/// those of some layer of the image: `listed`. So, if no layer of an image has the name of one of these keys, no package of the
/// image has one of the keys: `unlisted`. Each key of a package has the package's name: `keys`. For proofs: it has no effect
/// at run time.
pub fn names_law()
    ensures sorted { (shape : Shape) → IsStrictlySortedBy text_cmp (layer_names shape) }
    ensures listed { (shapes : List Shape) (seals : List (Option (List ℕ))) (found : List Package) → coalesced shapes seals ≡ Good found → AllByRecursion (λ p. some_layer_has shapes (key_name p) ≡ true) found }
    ensures unlisted { (shapes : List Shape) (seals : List (Option (List ℕ))) (found : List Package) (keys : List PackageName) → coalesced shapes seals ≡ Good found → list_any (has_name_of keys) shapes ≡ false → AllByRecursion (λ p. has_key_of keys p ≡ false) found }
    ensures keys { (p : Package) → AllByRecursion (λ key. key.name ≡ key_name p) (keys_of p) }
{}
