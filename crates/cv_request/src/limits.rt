//! The limits of requests (defined by this project).

/// The most lanes that requests come by. They are numbered from 0.
pub const MAX_LANES: u8 = 8;

/// The most bytes of the name of a feed.
pub const MAX_FEED_NAME_LEN: usize = 64;

/// The most rows of a page.
pub const MAX_PAGE_ROWS: u32 = 1000;
