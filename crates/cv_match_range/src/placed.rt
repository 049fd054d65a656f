/// A place in an order of versions: before every version, at one, or after every one.
#[derive(Drop)]
pub enum Bound<V> {
    Start,
    At(V),
    End,
}

/// An event of a range with its place in the order.
#[derive(Drop)]
pub enum Placed<V> {
    Introduced(Bound<V>),
    Fixed(V),
    LastAffected(V),
    Limit(Bound<V>),
}
