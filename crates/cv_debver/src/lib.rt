//! Which texts are versions of Debian packages, and how two compare, after Debian Policy 5.6.12. Nothing here takes memory.
//!
//! `compare(b"1.0~rc1", b"1.0")` is `Less`, and so is `compare(b"9", b"1:0")`.
#![tactic(auto)]

mod grammar;
mod parts;
mod version;

pub use grammar::is_version;
pub use version::{compare, version_order_laws};
