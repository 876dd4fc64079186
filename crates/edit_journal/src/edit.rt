//! One edit of a leaf tile.
ghost use Rattle.std.specs.Prelude.{◌≡◌, option_map};
ghost use Rattle.std.specs.Arc.{arc_value};
ghost use Rattle.edit_journal.specs.Edit.{edit_of, leaf_of, edit_tile};
ghost use Rattle.edit_journal.specs.Leaves.{edit_charge};

use crate::charge::charge_of_tile;
use std::alloc::AllocError;
use std::sync::Arc;
use tile_pixels::Tile;

/// An edit of the leaf tile with that number.
#[derive(Drop)]
pub enum Edit {
    /// The leaf has this tile, whether it was there or not.
    Put { leaf: u64, tile: Arc<Tile> },
    /// The leaf, which isn't there, has this tile.
    Add { leaf: u64, tile: Arc<Tile> },
    /// The leaf, which is there, has this tile in place of its own.
    Replace { leaf: u64, tile: Arc<Tile> },
    /// The leaf, which is there, is taken away.
    Remove { leaf: u64 },
}

/// A clone shares the tile.
impl Clone for Edit {
    ghost is_clone = { λ edit clone. edit_of clone ≡ edit_of edit };

    fn clone(&self) -> Result<Edit, AllocError> {
        match self {
            Edit::Put { leaf, tile } => Ok(Edit::Put {
                leaf: *leaf,
                tile: tile.clone()?,
            }),
            Edit::Add { leaf, tile } => Ok(Edit::Add {
                leaf: *leaf,
                tile: tile.clone()?,
            }),
            Edit::Replace { leaf, tile } => Ok(Edit::Replace {
                leaf: *leaf,
                tile: tile.clone()?,
            }),
            Edit::Remove { leaf } => Ok(Edit::Remove { leaf: *leaf }),
        }
    }
}

impl Edit {
    /// The number of the leaf.
    pub fn leaf(&self) -> u64
        ensures { result ≡ leaf_of (edit_of self.now) }
    {
        match self {
            Edit::Put { leaf, .. } => *leaf,
            Edit::Add { leaf, .. } => *leaf,
            Edit::Replace { leaf, .. } => *leaf,
            Edit::Remove { leaf } => *leaf,
        }
    }

    /// The tile that the leaf then has; `None` exactly for a Remove.
    pub fn tile(&self) -> Option<&Arc<Tile>>
        ensures { option_map (λ tile. arc_value tile.now) result ≡ edit_tile (edit_of self.now) }
    {
        match self {
            Edit::Put { tile, .. } => Some(tile),
            Edit::Add { tile, .. } => Some(tile),
            Edit::Replace { tile, .. } => Some(tile),
            Edit::Remove { .. } => None,
        }
    }

    /// The bytes that are charged for the tile; 0 for a Remove.
    pub fn charge(&self) -> u64
        ensures { result ≡ edit_charge (edit_of self.now) }
    {
        match self.tile() {
            Some(tile) => charge_of_tile(tile),
            None => 0,
        }
    }
}
