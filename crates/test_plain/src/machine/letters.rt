/// The letters of all images, in ascending order.
pub const IMAGES: [u8; 7] = *b"ABCDEFG";

/// The letters of all layers, in ascending order. The layer of `m` is missing.
pub const LAYERS: [u8; 7] = *b"bdmnsuw";
