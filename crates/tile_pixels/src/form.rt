//! What the tiles of a mosaic have in common.
use parent_rule::Depth;

/// What the pixels of tiles are, and `n` of their `2^n` columns and lines.
#[derive(Clone, Copy)]
pub struct TileForm {
    pub depth: Depth,
    pub n: u8,
}
