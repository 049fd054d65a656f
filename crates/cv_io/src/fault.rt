use thiserror::Error;

/// Why a single read or write was not made.
#[derive(Clone, Copy, Debug, PartialEq, Eq, Error)]
pub enum IoFault {
    #[error("the source or the sink failed")]
    Failed,
    #[error("out of memory")]
    NoMemory,
}
