ghost use Rattle.std.specs.Prelude.{◌≡◌};
ghost use Rattle.json.specs.Value.{value_view, items_view, members_view};
ghost use Rattle.cv_osv_text.specs.Tree.{has_bad_number, items_bad_number, members_bad_number};

use crate::number::read_number;
use json::Value;

/// Whether a number somewhere in a tree is out of range for serde_json.
#[cycle(number)]
pub(crate) fn has_bad_number(value: &Value<'_>) -> bool
    ensures { result ≡ has_bad_number (value_view value.now) }
{
    match value {
        Value::Null | Value::Bool(_) | Value::String(_) => false,
        Value::Number(text) => read_number(text).is_none(),
        Value::Array(items) => items_bad_number(items),
        Value::Object(members) => members_bad_number(members),
    }
}

#[cycle(number)]
fn items_bad_number(items: &Vec<Value<'_>>) -> bool
    ensures { result ≡ items_bad_number (items_view items.now.items) }
{
    for item in items {
        if has_bad_number(item) {
            return true;
        }
    }
    false
}

#[cycle(number)]
fn members_bad_number(members: &Vec<(&str, Value<'_>)>) -> bool
    ensures { result ≡ members_bad_number (members_view members.now.items) }
{
    for member in members {
        if has_bad_number(&member.1) {
            return true;
        }
    }
    false
}
