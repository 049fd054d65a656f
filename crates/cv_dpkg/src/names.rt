//! The names of a paragraph's fields, found again without regard to the case of ASCII letters.
ghost use Rattle.std.specs.Prelude.{◌≡◌, not, IfOk, OnOk};
ghost use Rattle.cv_dpkg.specs.code.Steps.{stood_in, with_name};
ghost use Rattle.cv_dpkg.specs.code.Names.{name_cmp};

use crate::field::name_order;
use cv_base::NoMemory;
use std::alloc::Global;
use std::cmp::Ordering;
use std::collections::BTreeSet;

/// A field's name as it stands in the file.
#[derive(Clone, Copy)]
pub struct FieldName<'a> {
    pub text: &'a [u8],
}

impl PartialEq for FieldName<'_> {
    ghost use Rattle.std.specs.Cmp.{eq_by_cmp_equiv, partial_equiv_from_equiv};
    ghost use Rattle.std.specs.Ordering.{eq_by_cmp};
    ghost use Rattle.cv_dpkg.specs.code.NameLaws.{field_name_cmp, field_name_total};

    ghost eq = { eq_by_cmp field_name_cmp };

    ghost laws = { partial_equiv_from_equiv (eq_by_cmp_equiv field_name_total) };

    fn eq(&self, other: &FieldName<'_>) -> bool {
        self.cmp(other).is_eq()
    }
}

impl Eq for FieldName<'_> {
    ghost use Rattle.std.specs.Cmp.{eq_by_cmp_equiv};
    ghost use Rattle.cv_dpkg.specs.code.NameLaws.{field_name_total};

    ghost laws = { eq_by_cmp_equiv field_name_total };
}

impl PartialOrd for FieldName<'_> {
    ghost use Rattle.std.specs.Prelude.{Some, refl};
    ghost use Rattle.std.specs.Cmp.{partial_order_from_agreeing_total};
    ghost use Rattle.cv_dpkg.specs.code.NameLaws.{field_name_cmp, field_name_total};

    ghost partial_cmp = { λ x y. Some (field_name_cmp x y) };

    ghost laws = { partial_order_from_agreeing_total field_name_cmp field_name_total (λ x y. refl) (λ x y. refl) };

    fn partial_cmp(&self, other: &FieldName<'_>) -> Option<Ordering> {
        Some(self.cmp(other))
    }
}

/// By bytes, with letters in lower case.
impl Ord for FieldName<'_> {
    ghost use Rattle.std.specs.Prelude.{refl};
    ghost use Rattle.cv_dpkg.specs.code.NameLaws.{field_name_cmp, field_name_total};

    ghost cmp = { field_name_cmp };

    ghost total = { field_name_total };

    ghost matches_partial_cmp = { λ x y. refl };

    ghost matches_eq = { λ x y. refl };

    fn cmp(&self, other: &FieldName<'_>) -> Ordering {
        name_order(self.text, other.text)
    }
}

/// Adds a name. The result is whether it is new.
pub fn add_name<'a>(names: &mut BTreeSet<FieldName<'a>>, name: &'a [u8]) -> Result<bool, NoMemory>
    ensures fresh { IfOk result (λ fresh. fresh ≡ not (stood_in names.old name.now)) }
    ensures kept { OnOk result (stood_in names.new ≡ with_name name.now (stood_in names.old)) }
{
    Ok(names.insert(FieldName { text: name })?)
}
