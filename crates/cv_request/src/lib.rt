//! Reads the requests of a client, each a line of JSON.
//!
//! ```text
//! {"do":"register","manifest":{"hash":"sha256:11..","layers":[{"hash":"sha256:aa..","seal":"sha256:5e..","uri":".."}]}}
//! {"do":"update","feed":"debian","advisories":[{"id":"DSA-5417-1","modified":"2023-05-31T00:00:00Z"}]}
//! {"do":"patch","feed":"debian","base":7,"remove":["DSA-5416-1"],"advisories":[{"id":"DSA-5417-1","modified":"2023-06-01T00:00:00Z"}]}
//! {"lane":1,"do":"report","image":"sha256:11.."}
//! {"lane":1,"do":"page","number":1,"size":100,"page":1}
//! ```
#![tactic(auto)]

mod error;
mod limits;
mod line;
mod manifest;
mod member;
mod node;
mod read;
mod record_list;
mod request;

pub use error::{RequestError, RequestFault, RequestWhat};
pub use limits::{MAX_FEED_NAME_LEN, MAX_LANES, MAX_PAGE_ROWS};
pub use line::read_json;
pub use manifest::read_manifest;
pub use node::RequestNode;
pub use read::read_value;
pub use request::{Act, Request};
