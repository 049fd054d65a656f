ghost use Rattle.std.specs.Prelude.{◌≡◌};
ghost use Rattle.std.specs.List.Sorted.{IsStrictlySortedBy};
ghost use Rattle.cv_match.specs.Keys.{name_cmp};
ghost use Rattle.cv_advdb.specs.Touched.{has_name, is_touched};

use crate::touch::Touched;
use cv_base::{Package, PackageName, Text};
use cv_match::{family, key_name};
use std::cmp::Ordering;

/// Whether one of a package's keys is touched. It takes no memory. The time is log n in the touched keys.
pub fn is_touched(touched: &Touched, package: &Package) -> bool
    ensures { result ≡ is_touched touched.now.keys «package».now }
{
    let keys = touched.keys.as_slice();
    let ecosystem = package.ecosystem.as_str();
    let name = key_name(package);
    has_name(keys, ecosystem, name) || has_name(keys, family(ecosystem), name)
}

/// Whether sorted names have the one of these parts.
fn has_name(names: &[PackageName], ecosystem: &str, name: &Text) -> bool
    requires { IsStrictlySortedBy name_cmp names.now }
    ensures { result ≡ has_name (record { ecosystem = ecosystem.now; name = name.now }) names.now }
{
    names
        .binary_search_by(|one| compare(one, ecosystem, name))
        .is_ok()
}

/// Compares a name with the one of these parts.
fn compare(one: &PackageName, ecosystem: &str, name: &Text) -> Ordering
    ensures { result ≡ name_cmp one.now (record { ecosystem = ecosystem.now; name = name.now }) }
{
    one.ecosystem
        .as_str()
        .cmp(ecosystem)
        .then_with(|| one.name.cmp(name))
}
