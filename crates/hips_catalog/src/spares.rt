//! Memory for tiles that are still to come.

use crate::tile::Tile;
use crate::tile_rows::TileRows;
use balanced_list::Item;
use healpix_nested::Cell;
use std::alloc::{AllocError, Global};

// How many are made at once.
const BATCH: usize = 64;

/// Nodes for tiles that are still to come. They are made many at once, so that they lie side by side: between the rows each
/// would lie on a page of its own, and a search among the tiles would touch as many pages as nodes.
#[derive(Drop)]
pub(crate) struct Spares {
    alloc: Global,
    nodes: Vec<Item<Tile>>,
}

impl Spares {
    /// None so far.
    pub(crate) fn new(alloc: Global) -> Spares {
        Spares {
            alloc,
            nodes: Vec::new(alloc),
        }
    }

    /// One of them, with some cell.
    ///
    /// # Errors
    ///
    /// `AllocError` where there is no memory for more of them.
    pub(crate) fn take(&mut self, cell: Cell) -> Result<Item<Tile>, AllocError> {
        if self.nodes.is_empty() {
            self.make_more(cell)?;
        }
        self.nodes.pop().ok_or(AllocError)
    }

    /// Keeps one that wasn't used.
    pub(crate) fn put_back(&mut self, spare: Option<Item<Tile>>) {
        if let Some(node) = spare {
            let _kept = self.nodes.push(node);
        }
    }

    // Makes as many as are made at once.
    fn make_more(&mut self, cell: Cell) -> Result<(), AllocError> {
        for _ in 0..BATCH {
            let tile = Tile {
                cell,
                rows: TileRows::new(),
            };
            self.nodes.push(Item::new(self.alloc, tile)?)?;
        }
        Ok(())
    }
}
