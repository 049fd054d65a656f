ghost use Rattle.std.specs.Prelude.{◌≡◌};
ghost use Rattle.cv_request.specs.Member.{whole_number};

use cv_osv::{NewTexts, Node, Texts};
use serde_json::Value;

/// A JSON value, owned or borrowed, that a request is read from. `T` makes the texts that the records of a feed keep.
pub trait RequestNode<T: Texts>: Node<T> {
    /// The number that the value is, if it is a whole one from 0 to 2^64 - 1.
    fn whole_number(&self) -> Option<u64>
        ensures { result ≡ whole_number (Self.data_of self.now) };
}

impl RequestNode<NewTexts> for Value {
    fn whole_number(&self) -> Option<u64> {
        self.as_u64()
    }
}
