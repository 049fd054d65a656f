ghost use Rattle.std.specs.Prelude.{◌≡◌, ◌++◌, IfOk, OnOk, option_to_list};
ghost use Rattle.cv_base.specs.InOrder.{in_order};
ghost use Rattle.cv_match.specs.Keys.{name_cmp};
ghost use Rattle.cv_advdb.specs.code.Index.{names_in};

use cv_base::{Advisory, Affected, NoMemory, PackageName, in_order};
use std::alloc::Global;

/// Appends the names of the packages of a record's entries.
pub fn push_names(names: &mut Vec<PackageName>, advisory: &Advisory) -> Result<(), NoMemory>
    ensures { OnOk result (names.new.items ≡ names.old.items ++ names_in advisory.now) }
{
    let entries = advisory.affected.as_slice();
    for entry in entries {
        push_name(names, entry)?;
    }
    Ok(())
}

fn push_name(names: &mut Vec<PackageName>, entry: &Affected) -> Result<(), NoMemory>
    ensures { OnOk result (names.new.items ≡ names.old.items ++ option_to_list entry.now.package) }
{
    if let Some(name) = &entry.package {
        names.push(name.clone()?)?;
    }
    Ok(())
}

/// Names by ecosystem and then by name, each once. The time is n log n in the names.
pub fn in_name_order(alloc: Global, names: Vec<PackageName>) -> Result<Vec<PackageName>, NoMemory>
    ensures { IfOk result (λ out. out.items ≡ in_order name_cmp names.items) }
{
    in_order(alloc, names)
}
