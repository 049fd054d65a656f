//! The limits of cvwatch (defined by this project), but for that of paths.

/// The most layers of an image.
pub const MAX_LAYERS: usize = 128;

/// The most records of a file of advisories, or of an update.
pub const MAX_ADVISORIES: usize = 200_000;

/// The most entries of a layer.
pub const MAX_ENTRIES: usize = 1_000_000;

/// The most bytes of a package file that is read.
pub const PACKAGE_FILE_LIMIT: u32 = 33_554_432;
