//! The definition of the service as its input and its output show it: which outputs are legal transcripts of an input, and what a legal
//! transcript shows if no worker gives a layer back. It has no algorithm: `specs/` judges a transcript, and the service is proved to
//! write legal ones. `specs/Rounds.antt` cuts an input into rounds, `specs/ParsedLine.antt` says what becomes of the lines of a round,
//! `specs/Replay.antt` what an entry may be at its place, `specs/Round.antt` what a round's entries are together, `specs/Legal.antt` what
//! a transcript is, and `specs/Complete.antt` which layers are indexed at its end, and which reports may be pending.
//!
//! ```text
//! IsLegal trees input output workers state: the output is a legal transcript, and leads to the state
//! AreAllIndexed state: each layer of each registered image is Indexed
//! ```
//!
//! `IsLegal` is of an input that was read to its end, by a service that begins, and `IsLegalFrom` of one that goes on from some moment.
//! The rounds before a refusal of reading are `AreLegalRounds` in `specs/Legal.antt`, which has the moment before them and the moment
//! after.
#![tactic(auto)]

mod complete_laws;
mod laws;
mod limits;
mod parsed_line;

pub use complete_laws::completeness_laws;
pub use laws::{generation_law, history_law, round_laws};
pub use limits::{MAX_ROUND_BYTES, MAX_ROUND_LINES};
pub use parsed_line::{ParsedLine, Requested};
