ghost use Rattle.std.specs.Prelude.{◌≡◌, [], ◌∷◌, ◌++◌, All, map, IfOk, OnOk};
ghost use Rattle.cv_coalesce.specs.Gathered.{visible};
ghost use Rattle.cv_coalesce.specs.Hides.{hides, is_hidden};
ghost use Rattle.cv_facts.specs.Order.{HasOrderedLists};

use crate::search::{has, has_above, has_at_or_above};
use cv_base::{NoMemory, RelPath};
use cv_facts::{FileFound, Reduction};
use std::alloc::Global;

/// Whether a layer hides what lower layers have at a path.
fn hides(layer: &Reduction, path: &RelPath) -> bool
    requires { HasOrderedLists layer.now }
    ensures { result ≡ hides layer.now path.now }
{
    has_at_or_above(layer.whiteouts.as_slice(), path)
        || has_above(layer.opaques.as_slice(), path)
        || has_at_or_above(layer.covers.as_slice(), path)
        || has(layer.place_dirs.as_slice(), path)
}

/// Whether one of these layers does.
fn is_hidden(higher: &[&Reduction], path: &RelPath) -> bool
    requires { All (λ h. HasOrderedLists h.now) higher.now }
    ensures { result ≡ is_hidden (map (λ h. h.now) higher.now) path.now }
{
    for layer in higher {
        if hides(layer, path) {
            return true;
        }
    }
    false
}

/// The files of a layer that none of the layers above it hides.
pub fn visible<'a>(
    alloc: Global,
    higher: &[&Reduction],
    files: &'a [FileFound],
) -> Result<Vec<&'a FileFound>, NoMemory>
    requires { All (λ h. HasOrderedLists h.now) higher.now }
    ensures { IfOk result (λ out. map (λ f. f.now) out.items ≡ visible (map (λ h. h.now) higher.now) files.now) }
{
    let mut out = Vec::new(alloc);
    for file in files {
        if is_hidden(higher, &file.path) {
            continue;
        }
        add(&mut out, file)?;
    }
    Ok(out)
}

fn add<'a>(out: &mut Vec<&'a FileFound>, file: &'a FileFound) -> Result<(), NoMemory>
    ensures { OnOk result (map (λ f. f.now) out.new.items ≡ map (λ f. f.now) out.old.items ++ file.now ∷ []) }
{
    out.push(file)?;
    Ok(())
}
