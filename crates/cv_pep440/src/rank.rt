//! The ranks by which pre-releases are ordered.

/// A development release of a release itself.
pub const DEV_RANK: u8 = 0;

/// A pre-release with the word `alpha` or `a`.
pub const ALPHA_RANK: u8 = 1;

/// A pre-release with the word `beta` or `b`.
pub const BETA_RANK: u8 = 2;

/// A pre-release with the word `rc`, `c`, `pre` or `preview`.
pub const CANDIDATE_RANK: u8 = 3;

/// A version that is no pre-release.
pub const RELEASE_RANK: u8 = 4;

/// The one rank of the words of post-releases, and of those of development releases.
pub const ONLY_RANK: u8 = 0;
