//! Which texts are versions of Alpine packages, `number{.number}[letter]{_suffix[number]}[-rnumber]`, and how two compare: a
//! profile of apk's order, apk-package(5). Nothing here takes memory, and numbers have any length.
//!
//! `compare(b"1.2_rc1", b"1.2")` is `Less`, and so is `compare(b"1.2.9-r1", b"1.2.10")`; `is_version(b"1.2~ab")` is false.
#![tactic(auto)]

mod grammar;
mod order;
mod parts;

pub use grammar::is_version;
pub use order::{compare, version_key_law, version_order_laws};
