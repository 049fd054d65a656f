//! Members of a JSON value. A member with the value null is present.
ghost use Rattle.std.specs.Prelude.{◌≡◌, map};
ghost use Rattle.std.specs.Option.{option_map};
ghost use Rattle.serde_json.specs.View.{items_of};
ghost use Rattle.cv_sbom.specs.Member.{is_named, items_at, property, text_at};

use cv_osv::{Node, Texts};

/// The text of a member.
pub(crate) fn text_at<'v, V: Node<T>, T: Texts>(value: &'v V, name: &str) -> Option<&'v str>
    ensures { option_map (λ text. text.now) result ≡ text_at name.now (V.data_of value.now) }
{
    match value.member(name) {
        None => None,
        Some(found) => found.text(),
    }
}

/// The items of a member that is a list.
pub(crate) fn items_at<'v, V: Node<T>, T: Texts>(value: &'v V, name: &str) -> Option<&'v [V]>
    ensures { option_map (λ items. items_of (map V.data_of items.now)) result ≡ items_at name.now (V.data_of value.now) }
{
    match value.member(name) {
        None => None,
        Some(found) => found.items(),
    }
}

/// The text of the first property with this name.
pub(crate) fn property<'v, V: Node<T>, T: Texts>(properties: &'v [V], name: &str) -> Option<&'v str>
    ensures { option_map (λ text. text.now) result ≡ property name.now (items_of (map V.data_of properties.now)) }
{
    let mut remaining = properties;
    while let [first, rest @ ..] = remaining {
        if is_named(first, name) {
            return text_at(first, "value");
        }
        remaining = rest;
    }
    None
}

/// Whether the member `name` is this text.
fn is_named<V: Node<T>, T: Texts>(value: &V, name: &str) -> bool
    ensures { result ≡ is_named name.now (V.data_of value.now) }
{
    match text_at(value, "name") {
        None => false,
        Some(text) => text == name,
    }
}
