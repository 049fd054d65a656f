//! Which texts are versions of Python packages, `[v][epoch!]release[pre][post][dev][+local]`, and how two compare, after
//! PEP 440. Nothing here takes memory, and numbers have any length.
//!
//! `compare(b"1.0rc1", b"1.0")` is `Less`, and so is `compare(b"1.0.post1", b"1!0")`; `is_version(b"1.0 ")` is false.
#![tactic(auto)]

mod grammar;
mod order;
mod parts;
mod rank;

pub use grammar::is_version;
pub use order::{compare, version_key_law, version_order_laws};
