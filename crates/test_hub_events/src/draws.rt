use cv_base::Digest;

/// How many images are registered and dropped. There may be fewer at a time.
pub const IMAGES: u64 = 12;

/// How many layers there are.
const LAYERS: u64 = 20;

/// An odd number that spreads others over all numbers of 64 bits.
const SPREAD: u64 = 0x9e37_79b9_7f4a_7c15;

/// A number that looks random.
pub fn draw(lane: u8, line: u64) -> u64 {
    let number = (u64::from(lane) << 32).wrapping_add(line);
    number.wrapping_mul(SPREAD) >> 40
}

/// The hash of an image.
pub fn hash(image: u64) -> Digest {
    Digest::of([(image % IMAGES) as u8; 32])
}

/// One of the layers.
pub fn layer(number: u64) -> Digest {
    Digest::of([100 + (number % LAYERS) as u8; 32])
}
