ghost use Rattle.std.specs.Prelude.{◌≡◌, IfOk};
ghost use Rattle.serde_json.specs.Data.{no_members, object, put, string};
ghost use Rattle.serde_json.specs.View.{view, members_view};
ghost use Rattle.cv_base.specs.Digest.{digest_text};

use cv_base::{Digest, NoMemory};
use serde_json::{Map, Value};
use std::alloc::Global;

/// An object that is made member by member. Its members are sorted by name.
#[derive(Drop)]
pub struct Object {
    pub map: Map<String, Value>,
}

impl Object {
    /// No members.
    pub fn new(alloc: Global) -> Object
        ensures { members_view result.map.entries ≡ no_members }
    {
        Object {
            map: Map::new(alloc),
        }
    }

    /// With one more member.
    pub fn value(mut self, alloc: Global, key: &str, value: Value) -> Result<Object, NoMemory>
        ensures { IfOk result (λ o. members_view o.map.entries ≡ put key.now (view value) (members_view self.map.entries)) }
    {
        serde_json::put(&mut self.map, alloc, key, value)?;
        Ok(self)
    }

    /// With one more member, which is a text.
    pub fn text(self, alloc: Global, key: &str, text: &str) -> Result<Object, NoMemory>
        ensures { IfOk result (λ o. members_view o.map.entries ≡ put key.now (string text.now) (members_view self.map.entries)) }
    {
        let value = Value::String(String::from_str(alloc, text)?);
        self.value(alloc, key, value)
    }

    /// With one more member, which is a digest in full.
    pub fn digest(self, alloc: Global, key: &str, digest: &Digest) -> Result<Object, NoMemory>
        ensures { IfOk result (λ o. members_view o.map.entries ≡ put key.now (string (digest_text digest.now)) (members_view self.map.entries)) }
    {
        let text = digest.text(alloc)?;
        self.text(alloc, key, text.as_str())
    }

    /// The object.
    pub fn done(self) -> Value
        ensures { view result ≡ object (members_view self.map.entries) }
    {
        Value::Object(self.map)
    }
}
