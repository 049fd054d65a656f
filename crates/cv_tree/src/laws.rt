ghost use Rattle.std.specs.Prelude.{◌≡◌, List, Some, None, if◌then◌else◌};
ghost use Rattle.std.specs.Map.{keys_of};
ghost use Rattle.std.specs.Option.{option_map};
ghost use Rattle.std.specs.Ordering.{is_eq};
ghost use Rattle.cv_tree.specs.Entries.{IsAscending, at, map_values, with_entry, without_key};

/// A new entry replaces what stands at its key, a removal takes away what stands there, all other keys keep their
/// values, and the keys still ascend.
pub fn change_laws<K: Ord, V>()
    ensures set { (es : List (K × V)) (k q : K) (v : V) → at K.cmp (with_entry K.cmp es k v) q ≡ (if is_eq (K.cmp q k) then Some v else at K.cmp es q) }
    ensures set_ascends { (es : List (K × V)) (k : K) (v : V) → IsAscending K.cmp es → IsAscending K.cmp (with_entry K.cmp es k v) }
    ensures without { (es : List (K × V)) (k q : K) → IsAscending K.cmp es → at K.cmp (without_key K.cmp es k) q ≡ (if is_eq (K.cmp q k) then None else at K.cmp es q) }
    ensures without_ascends { (es : List (K × V)) (k : K) → IsAscending K.cmp es → IsAscending K.cmp (without_key K.cmp es k) }
{}

/// If values are seen through a function, look-ups and changes go through it, and the keys stay.
pub fn value_laws<K: Ord, V, W>()
    ensures keys { (f : V → W) (es : List (K × V)) → keys_of (map_values f es) ≡ keys_of es }
    ensures get { (f : V → W) (es : List (K × V)) (k : K) → at K.cmp (map_values f es) k ≡ option_map f (at K.cmp es k) }
    ensures set { (f : V → W) (es : List (K × V)) (k : K) (v : V) → map_values f (with_entry K.cmp es k v) ≡ with_entry K.cmp (map_values f es) k (f v) }
    ensures without { (f : V → W) (es : List (K × V)) (k : K) → map_values f (without_key K.cmp es k) ≡ without_key K.cmp (map_values f es) k }
{}
