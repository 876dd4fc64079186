//! The tile of one cell, named by the cell.
use std::sync::Arc;
use tile_pixels::Tile;

/// The cell `npix` of an order, and its tile; `None` where the cell has none.
#[derive(Drop)]
pub struct Named {
    pub order: u8,
    pub npix: u64,
    pub tile: Option<Arc<Tile>>,
}
