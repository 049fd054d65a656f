ghost use Rattle.std.specs.Prelude.{◌≡◌, map};
ghost use Rattle.std.specs.Option.{option_map};
ghost use Rattle.cv_osv.specs.RecordAnswer.{Answers};
ghost use Rattle.cv_osv.specs.Json.{member_at, object_or, text_or, optional_text_or, items_or};
ghost use Rattle.serde_json.specs.View.{items_of};

use crate::node::{Node, Texts};
use crate::record_error::RecordWhat;

/// The member with this name. A null counts as absent.
pub(crate) fn member_at<'v, V: Node<T>, T: Texts>(value: &'v V, name: &str) -> Option<&'v V>
    ensures { option_map (λ v. V.data_of v.now) result ≡ member_at name.now (V.data_of value.now) }
{
    match value.member(name) {
        None => None,
        Some(found) => if found.is_null() { None } else { Some(found) },
    }
}

pub(crate) fn object_or<V: Node<T>, T: Texts>(value: &V, bad: RecordWhat) -> Result<(), RecordWhat>
    ensures { Answers (λ _. tt) result (object_or bad (V.data_of value.now)) }
{
    if value.is_object() { Ok(()) } else { Err(bad) }
}

/// A text that has to be present.
pub(crate) fn text_or<V: Node<T>, T: Texts>(
    found: Option<&V>,
    bad: RecordWhat,
) -> Result<&str, RecordWhat>
    ensures { Answers (λ text. text.now) result (text_or bad (option_map (λ v. V.data_of v.now) found.entry)) }
{
    match found {
        None => Err(bad),
        Some(value) => value.text().ok_or(bad),
    }
}

/// A text that may be absent.
pub(crate) fn optional_text_or<V: Node<T>, T: Texts>(
    found: Option<&V>,
    bad: RecordWhat,
) -> Result<Option<&str>, RecordWhat>
    ensures { Answers (λ text. option_map (λ t. t.now) text) result
        (optional_text_or bad (option_map (λ v. V.data_of v.now) found.entry)) }
{
    match found {
        None => Ok(None),
        Some(value) => match value.text() {
            None => Err(bad),
            text => Ok(text),
        },
    }
}

/// The items of a list that may be absent.
pub(crate) fn items_or<V: Node<T>, T: Texts>(
    found: Option<&V>,
    bad: RecordWhat,
) -> Result<&[V], RecordWhat>
    ensures { Answers (λ items. items_of (map V.data_of items.now)) result
        (items_or bad (option_map (λ v. V.data_of v.now) found.entry)) }
{
    match found {
        None => Ok(&[]),
        Some(value) => match value.items() {
            None => Err(bad),
            Some(items) => Ok(items),
        },
    }
}
