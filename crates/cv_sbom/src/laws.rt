ghost use Rattle.std.specs.Prelude.{◌≡◌, ℕ, List, Ok, Some, true};
ghost use Rattle.std.specs.List.{list_all};
ghost use Rattle.cv_base.specs.declared.package.Package.{Package};
ghost use Rattle.cv_base.specs.declared.tree.TreeEntry.{TreeEntry};
ghost use Rattle.cv_packages.specs.Packages.{packages};
ghost use Rattle.cv_sbom.specs.ListRead.{list_read, list_with};
ghost use Rattle.cv_sbom.specs.ListText.{list_text};
ghost use Rattle.cv_sbom.specs.Listable.{AreListable, IsDigest, is_below_top};

/// A list that `write_list` wrote is read by `read_list` as its image and its packages, sorted by their fields, each once. No
/// component of it is skipped.
pub fn list_laws()
    ensures read_back { (image : List ℕ) (packages : List Package) → IsDigest image → AreListable packages
        → list_read (list_text image packages) ≡ Ok (list_with (Some image) packages 0) }
{}

/// The packages that are read from the files of a root stand below its top. So the list that `write_list` writes of them reads
/// back.
pub fn packages_law()
    ensures below_top { (entries : List TreeEntry) (found : List Package) → packages entries ≡ Ok found
        → list_all is_below_top found ≡ true }
{}
