//! The limits of a round (defined by this project).

/// The most lines of a round.
pub const MAX_ROUND_LINES: usize = 4096;

/// The most bytes of a round, those of the texts of its lines.
pub const MAX_ROUND_BYTES: usize = 134_217_728;
