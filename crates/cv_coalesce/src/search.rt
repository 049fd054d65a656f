ghost use Rattle.std.specs.Prelude.{◌≡◌, IsSorted, slice_get};
ghost use Rattle.std.specs.List.{list_any};
ghost use Rattle.cv_base.specs.Path.{is_above, path_cmp, same_path};
ghost use Rattle.cv_coalesce.specs.code.Search.{IsFront, is_lower};
ghost use Rattle.cv_overlay.specs.Mark.{at_or_above};

use cv_base::RelPath;

/// What a search for the first components of a path finds in a sorted list.
#[derive(Clone, Copy)]
pub enum Front {
    Found,
    Missing,
    /// Neither this front of the path nor a longer one is in the list.
    Last,
}

/// Whether a sorted list has a path.
pub fn has(list: &[RelPath], path: &RelPath) -> bool
    requires { IsSorted path_cmp list.now }
    ensures { result ≡ list_any (λ t. same_path t path.now) list.now }
{
    list.binary_search(path).is_ok()
}

/// Searches a sorted list for the first `depth` components of a path. Where none of its entries stands between these
/// and the path, it has no longer front of the path.
pub fn search_front(list: &[RelPath], path: &RelPath, depth: usize) -> Front
    requires { IsSorted path_cmp list.now }
    ensures { IsFront list.now path.now depth result }
{
    match list.binary_search_by(|item| item.compare_front(path, depth)) {
        Ok(_) => Front::Found,
        Err(next) => {
            if is_lower(list, next, path) {
                Front::Missing
            } else {
                Front::Last
            }
        }
    }
}

/// Whether the entry of a list at an index comes before a path.
fn is_lower(list: &[RelPath], index: usize, path: &RelPath) -> bool
    ensures { result ≡ is_lower (slice_get list.now index) path.now }
{
    match list.get(index) {
        Some(item) => item.cmp(path).is_lt(),
        None => false,
    }
}

/// Whether a sorted list has a path above another one. It searches for the fronts of that one, the shortest first.
pub fn has_above(list: &[RelPath], path: &RelPath) -> bool
    requires { IsSorted path_cmp list.now }
    ensures { result ≡ list_any (λ t. is_above t path.now) list.now }
{
    for depth in 0..path.depth() {
        match search_front(list, path, depth) {
            Front::Found => return true,
            Front::Missing => {}
            Front::Last => return false,
        }
    }
    false
}

/// Whether a sorted list has a path, or one above it.
pub fn has_at_or_above(list: &[RelPath], path: &RelPath) -> bool
    requires { IsSorted path_cmp list.now }
    ensures { result ≡ list_any (λ t. at_or_above t path.now) list.now }
{
    has(list, path) || has_above(list, path)
}
