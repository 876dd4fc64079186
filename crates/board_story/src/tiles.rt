//! The tile of the edits.
use parent_rule::{Depth, Steps};
use std::alloc::Global;
use std::sync::Arc;
use std::test::Fail;
use tile_pixels::Tile;

/// A tile of the small survey: two columns and two lines of 16 bits.
///
/// # Errors
///
/// Where there is no memory.
pub fn tile(alloc: Global) -> Result<Arc<Tile>, Fail> {
    let depth = Depth::new(16, -32768).ok_or("no depth")?;
    if depth.bytes() != 2 {
        return Err("other tiles".into());
    }
    let tile = Tile::from_bytes(alloc, &[1; 8], depth, 1, &mut Steps::new())?;
    Ok(Arc::new(alloc, tile)?)
}
