//! What is charged for tiles, in bytes.
ghost use Rattle.std.specs.Prelude.{◌≡◌};
ghost use Rattle.tile_pixels.specs.Tile.{PixelTile};
ghost use Rattle.edit_journal.specs.Leaves.{FitsTile, tile_charge, leaf_charge};

use pyramid_model::Shape;
use tile_pixels::Tile;

/// The greatest charge of a journal.
pub const MOST_CHARGE: u64 = 1 << 29;

// The least that a tile is charged with.
const LEAST_CHARGE: u64 = 1024;

/// What is charged for each leaf tile of that shape: its stored bytes, and 1,024 at least.
pub fn leaf_charge(shape: Shape) -> u64
    ensures charge { result ≡ leaf_charge shape }
    ensures tiles { (tile : PixelTile) → FitsTile shape tile → tile_charge tile ≡ result }
{
    let numbers = 4u64.pow(u32::from(shape.n));
    (numbers * u64::from(shape.depth.bitpix() / 8)).max(LEAST_CHARGE)
}

/// What a tile is charged with.
pub(crate) fn charge_of_tile(tile: &Tile) -> u64
    ensures { result ≡ tile_charge tile.now }
{
    (tile.raw().len() as u64).max(LEAST_CHARGE)
}
