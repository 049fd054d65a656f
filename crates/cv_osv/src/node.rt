ghost use Rattle.std.specs.Prelude.{◌≡◌, is_some, map, IfOk};
ghost use Rattle.std.specs.Option.{option_map};
ghost use Rattle.serde_json.specs.Data.{Data};
ghost use Rattle.serde_json.specs.Find.{as_array, as_null, as_object, as_str, get};
ghost use Rattle.serde_json.specs.View.{items_of};

use cv_base::{NoMemory, Text};
use serde_json::Value;
use std::alloc::Global;

/// Makes the texts that the entries of a record keep: ecosystems, names of packages and versions. The record's own `id` and
/// `modified` are copied.
pub trait Texts {
    /// The text that is kept for this one.
    fn text(&mut self, alloc: Global, text: &str) -> Result<Text, NoMemory>
        ensures { IfOk result (λ made. made ≡ text.now) };
}

/// A JSON value, owned or borrowed, that a record is read from. `T` makes the texts that the record's entries keep. A crate
/// whose own type is `T` may implement this for a value of another crate.
pub trait Node<T: Texts>: Sized {
    /// The value as serde_json has it.
    ghost data_of: { Self → Data };

    /// The member with this name. A value that is not an object has none. If a JSON text has the name twice, its value has the
    /// last one.
    fn member(&self, name: &str) -> Option<&Self>
        ensures { option_map (λ found. data_of found.now) result ≡ get name.now (data_of self.now) };

    /// Whether the value is null.
    fn is_null(&self) -> bool
        ensures { result ≡ is_some (as_null (data_of self.now)) };

    /// Whether the value is an object.
    fn is_object(&self) -> bool
        ensures { result ≡ is_some (as_object (data_of self.now)) };

    /// The text that the value is.
    fn text(&self) -> Option<&str>
        ensures { option_map (λ text. text.now) result ≡ as_str (data_of self.now) };

    /// The items of the list that the value is.
    fn items(&self) -> Option<&[Self]>
        ensures { option_map (λ items. items_of (map data_of items.now)) result ≡ as_array (data_of self.now) };
}

/// Makes each text anew.
#[derive(Drop)]
pub struct NewTexts;

impl Texts for NewTexts {
    fn text(&mut self, alloc: Global, text: &str) -> Result<Text, NoMemory> {
        Text::of(alloc, text)
    }
}

impl Node<NewTexts> for Value {
    ghost use Rattle.serde_json.specs.View.{view};

    ghost data_of = { view };

    fn member(&self, name: &str) -> Option<&Value> {
        self.get(name)
    }

    fn is_null(&self) -> bool {
        self.is_null()
    }

    fn is_object(&self) -> bool {
        self.is_object()
    }

    fn text(&self) -> Option<&str> {
        self.as_str()
    }

    fn items(&self) -> Option<&[Value]> {
        match self.as_array() {
            None => None,
            Some(items) => Some(items.as_slice()),
        }
    }
}
