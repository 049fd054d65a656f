ghost use Rattle.std.specs.Prelude.{◌≡◌};
ghost use Rattle.std.specs.Option.{option_map};
ghost use Rattle.cv_osv_text.specs.Tree.{data_items, data_view};
ghost use Rattle.json.specs.Value.{items_view};
ghost use Rattle.serde_json.specs.Find.{as_array};

use crate::number::read_whole;
use crate::shared::SharedTexts;
use cv_osv::Node;
use cv_request::RequestNode;
use json::Value;

impl<'a> Node<SharedTexts> for Value<'a> {
    ghost use Rattle.cv_osv_text.specs.Tree.{data_view};

    ghost data_of = { data_view };

    fn member(&self, name: &str) -> Option<&Value<'a>> {
        self.get(name)
    }

    #[tactic(auto, using(crate::proofs::Data::null_is))]
    fn is_null(&self) -> bool {
        self.is_null()
    }

    fn is_object(&self) -> bool {
        match self {
            Value::Object(_) => true,
            _ => false,
        }
    }

    fn text(&self) -> Option<&str> {
        match self {
            Value::String(text) => Some(*text),
            _ => None,
        }
    }

    #[tactic(auto, using(crate::proofs::Data::items_are))]
    fn items(&self) -> Option<&[Value<'a>]> {
        match array_of(self) {
            None => None,
            Some(items) => Some(items.as_slice()),
        }
    }
}

impl<'a> RequestNode<SharedTexts> for Value<'a> {
    fn whole_number(&self) -> Option<u64> {
        match self {
            Value::Number(text) => read_whole(text),
            _ => None,
        }
    }
}

fn array_of<'v, 'a>(value: &'v Value<'a>) -> Option<&'v Vec<Value<'a>>>
    ensures { option_map (λ items. data_items (items_view items.now.items)) result ≡ as_array (data_view value.now) }
{
    if let Value::Array(items) = value {
        Some(items)
    } else {
        None
    }
}
