//! The limit of paths (defined by this project).

/// The most bytes of a path.
pub const MAX_PATH_LEN: usize = 4096;
