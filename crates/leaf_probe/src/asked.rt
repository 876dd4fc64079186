//! What is asked for.

/// A tile that is asked for: tile `npix` of order `order`, over leaves of order `top` and tiles of `2^n` columns and lines.
#[derive(Clone, Copy, Debug, PartialEq, Eq)]
pub struct Probe {
    /// The order of the leaves, 3 to 11.
    pub top: u8,
    /// The exponent of a tile's width, 1 to 9.
    pub n: u8,
    /// The order of the tile, up to that of the leaves.
    pub order: u8,
    /// Its number.
    pub npix: u64,
}
