//! What orders are made of: texts compared by keys of their bytes, runs of decimal digits of any length compared as numbers, and
//! lists compared place by place, the shorter one going on with a filler for ever. Nothing here takes memory.
//!
//! `compare_numbers(b"010-a", b"9+b")` is `Greater`, with the rests `-a` and `+b`.
#![tactic(auto)]

mod bytes;
mod compare;
mod digits;

pub use bytes::find;
pub use compare::{ByteKey, compare_by, compare_in_lower_case};
pub use digits::{
    Compared, are_digits, compare_digits, compare_numbers, number_order_laws, significant,
    skip_digits, split_digits,
};
