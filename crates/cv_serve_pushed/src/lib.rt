//! Serves requests as `cv_serve` does, and hands the notifications to a hook. After a round the notifications that stand are offered in
//! order, up to the first one that the hook does not take. `specs/Attempts.antt` says what such attempts are, `specs/Pushes.antt` what
//! follows the lines of a round, `specs/Rounds.antt` what all rounds made, and `specs/Pushed.antt` what each end of such a service says.
//!
//! ```text
//! let end = serve_pushed(rt, alloc, &mut input, &mut output, &mut hook, &mut desks, workers);
//! ```
#![tactic(auto)]

mod attempts;
mod laws;
mod rounds;
mod service;
mod text;
mod view;

pub use attempts::attempt_round;
pub use cv_serve::ServeEnd;
pub use laws::push_laws;
pub use rounds::PushRounds;
pub use service::serve_pushed;
pub use text::hook_text;
