//! Does one step of a scan many times over made data.
mod feeds;
mod matching;
mod orders;
mod overlay;
mod sample;

pub use feeds::{make_records, match_packages, replace_records};
pub use matching::match_record;
pub use orders::{Order, compare_pairs};
pub use overlay::lay_layers;
pub use sample::Sample;
