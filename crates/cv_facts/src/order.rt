ghost use Rattle.std.specs.Prelude.{◌≡◌, IfOk};
ghost use Rattle.cv_base.specs.InOrder.{in_order};
ghost use Rattle.cv_base.specs.Path.{path_cmp};

use cv_base::{NoMemory, RelPath, in_order};
use std::alloc::Global;

/// Paths in their order, each once.
pub fn in_path_order(alloc: Global, paths: Vec<RelPath>) -> Result<Vec<RelPath>, NoMemory>
    ensures { IfOk result (λ out. out.items ≡ in_order path_cmp paths.items) }
{
    in_order(alloc, paths)
}
