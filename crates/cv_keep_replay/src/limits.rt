//! The limit of workers (defined by this project).

/// The most workers that a service has. They are numbered from 0.
pub const MAX_WORKERS: u32 = 8;
