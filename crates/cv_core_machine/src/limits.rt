/// The most images that the service registers.
pub const MAX_IMAGES: u32 = 20_000;

/// The most feeds that the service has.
pub const MAX_FEEDS: u32 = 64;

/// How many images may be registered, and how many feeds there may be.
#[derive(Clone, Copy, Debug, PartialEq, Eq)]
pub struct Limits {
    pub images: u32,
    pub feeds: u32,
}
