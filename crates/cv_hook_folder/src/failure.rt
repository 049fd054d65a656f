use std::io;
use thiserror::Error;

/// Which file of `./hook` could not be written, and why, as the system says. It is meant for people.
#[derive(Clone, Copy, Debug, Error)]
#[error("hook/{number}.json: {reason}")]
pub struct HookFailure {
    pub number: u64,
    pub reason: io::Error,
}
