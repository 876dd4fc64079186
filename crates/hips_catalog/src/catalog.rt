//! A catalogue.
ghost use Rattle.std.specs.Prelude.{◌≡◌, ◌↔◌, ◌≤◌, true, false, Ok, Err, length, option_map, option_copied, slice_get, IfOk, IfErr, OnOk, OnErr};
ghost use Rattle.std.specs.Arc.{arc_value};
ghost use Rattle.healpix_nested.specs.Cells.{IsCell};
ghost use Rattle.hips_catalog.specs.Catalogue.{IsCatalogue, most_rows, has_id, no_rows, with_row, without_row, tile_rows, existing_tiles};
ghost use Rattle.hips_catalog.specs.Kept.{StandsAt, WouldStandAt};
ghost use Rattle.hips_catalog.specs.TileText.{tile_text};
ghost use Rattle.hips_catalog.specs.declared.refusal.InsertRefusal.TheVariants.{Twice, Full};

use crate::headed_row::{After, HeadedRow};
use crate::ranked::Ranked;
use crate::refusal::InsertRefusal;
use crate::rise::rise;
use crate::row::Row;
use crate::sink::{cell_of, sink};
use crate::spares::Spares;
use crate::text::text_of;
use crate::tile::{Tiles, rows};
use balanced_list::{BalancedList, Item};
use healpix_nested::Cell;
use std::alloc::{AllocError, Global};
use std::marker::Model;
use std::sync::Arc;

/// The most rows that a catalogue has.
pub const MOST_ROWS: usize = 1_000_000;

// A row that can be put in without memory: its place among the ids, and that in a tile.
#[derive(Drop)]
struct Ready {
    listed: Item<HeadedRow>,
    placed: Item<Ranked>,
}

/// Sources by rank, in a tree of tiles: each tile holds the best rows of its cell that no tile above it holds, up to a number
/// of them, and a tile of the deepest order all that are left. Contracts see the deepest order, that number, and the rows by
/// their ids.
#[derive(Drop)]
pub struct Catalog {
    alloc: Global,
    top: u8,
    per_tile: usize,
    // By ascending ids.
    ids: BalancedList<HeadedRow>,
    tiles: Tiles,
    spares: Spares,
}

impl Model for Catalog {
    ghost use Rattle.hips_catalog.specs.Catalogue.{Catalogue};
    ghost use Rattle.hips_catalog.specs.Tiles.{sources};
    ghost use Rattle.hips_catalog.specs.Kept.{kept_content, IsKeptCatalogue};

    ghost Value = { Catalogue };

    ghost view = { λ c. kept_content c.top c.per_tile (sources c.ids) };

    ghost invariant = { λ c. IsKeptCatalogue (kept_content c.top c.per_tile (sources c.ids)) c.tiles };
}

impl Catalog {
    /// A catalogue without rows: its deepest order, at most 11, and how many rows a tile above that order holds at most, from
    /// 1 to 4,096.
    pub fn new(alloc: Global, top: u8, per_tile: u32) -> Catalog
        requires top { top ≤ 11 }
        requires least { 1 ≤ per_tile }
        requires most { per_tile ≤ 4096 }
        ensures { result ≡ no_rows top per_tile }
    {
        Catalog {
            alloc,
            top,
            per_tile: per_tile as usize,
            ids: BalancedList::new(),
            tiles: BalancedList::new(),
            spares: Spares::new(alloc),
        }
    }

    /// Puts a row in, whose cell is of the deepest order.
    ///
    /// # Errors
    ///
    /// `Twice` if and only if a row has its id; then `Full` if and only if there are 1,000,000 rows; `OutOfMemory` where there
    /// is no memory for it. Then everything is as it was.
    pub fn insert(&mut self, row: Row) -> Result<(), InsertRefusal>
        requires cell { IsCell self.old.top row.npix }
        ensures done { OnOk result (self.new ≡ with_row row self.old) }
        ensures twice { (result ≡ Err Twice) ↔ (has_id row.id self.old.rows ≡ true) }
        ensures full { (result ≡ Err Full) ↔ ((has_id row.id self.old.rows ≡ false) × (length self.old.rows ≡ most_rows)) }
        ensures kept { OnErr result (self.new ≡ self.old) }
    {
        let at = match self.find(row.id()) {
            Ok(_) => return Err(InsertRefusal::Twice),
            Err(at) => at,
        };
        if self.ids.len() == MOST_ROWS {
            return Err(InsertRefusal::Full);
        }
        let cell = cell_of(&row, self.top, self.top);
        let ready = self.made_ready(row)?;
        let mut spare = Some(self.spares.take(cell)?);
        self.ids.insert(at, ready.listed);
        sink(
            &mut self.tiles,
            self.top,
            self.per_tile,
            ready.placed,
            &mut spare,
        );
        self.spares.put_back(spare);
        Ok(())
    }

    /// Takes the row of an id out, and answers whether there was one.
    ///
    /// # Errors
    ///
    /// None, since it takes no memory.
    pub fn remove(&mut self, id: &[u8]) -> Result<bool, AllocError>
        ensures there { result ≡ Ok (has_id id.now self.old.rows) }
        ensures done { self.new ≡ without_row id.now self.old }
    {
        match self.find(id) {
            Ok(at) => {
                let row = self.ids.remove(at);
                rise(&mut self.tiles, self.top, self.per_tile, row.item().row());
                Ok(true)
            }
            Err(_) => Ok(false),
        }
    }

    /// How many rows there are.
    pub fn len(&self) -> u64
        ensures count { result ≡ length self.now.rows }
        ensures known { IsCatalogue self.now }
    {
        self.ids.len() as u64
    }

    /// The cell of tile `i` of those that exist, by order and number, from 0; `None` if and only if `i` is past the last.
    pub fn tile(&self, i: u64) -> Option<Cell>
        ensures { result ≡ slice_get (existing_tiles self.now) i }
    {
        match self.tiles.get(i as usize) {
            Some(tile) => Some(tile.cell),
            None => None,
        }
    }

    /// Row `i` of the cell's tile, the best first, from 0; `None` if and only if `i` is past the last.
    pub fn row(&self, cell: Cell, i: u64) -> Option<&Row>
        ensures { option_copied result ≡ slice_get (tile_rows self.now cell.order cell.npix) i }
    {
        match rows(&self.tiles, cell) {
            Some(rows) => match rows.get(i as usize) {
                Some(row) => Some(row.row()),
                None => None,
            },
            None => None,
        }
    }

    /// The text of the cell's tile, as tab-separated values: a line of the names of the columns, and a line for each row;
    /// `None` if and only if the tile doesn't exist.
    ///
    /// # Errors
    ///
    /// `AllocError` where there is no memory for it.
    pub fn text(&self, cell: Cell) -> Result<Option<Vec<u8>>, AllocError>
        ensures { IfOk result (λ text. option_map (λ bytes. bytes.items) text ≡ tile_text self.now cell.order cell.npix) }
    {
        match rows(&self.tiles, cell) {
            Some(rows) => text_of(self.alloc, rows),
            None => Ok(None),
        }
    }

    // The row with the memory for its places.
    fn made_ready(&self, row: Row) -> Result<Ready, AllocError>
        ensures listed { IfOk result (λ ready. arc_value ready.listed ≡ row) }
        ensures placed { IfOk result (λ ready. arc_value ready.placed ≡ row) }
    {
        let row = Arc::new(self.alloc, row)?;
        Ok(Ready {
            listed: Item::new(self.alloc, HeadedRow::new(row.clone()?))?,
            placed: Item::new(self.alloc, Ranked::new(row))?,
        })
    }

    // The place of the row with the id among the ids, or else where it would be.
    fn find(&self, id: &[u8]) -> Result<usize, usize>
        ensures there { IfOk result (λ at. StandsAt id.now self.now.rows at) }
        ensures absent { IfErr result (λ at. WouldStandAt id.now self.now.rows at) }
    {
        let (at, there) = self.ids.search(&After::new(id));
        match there {
            Some(row) => {
                if row.row().id() == id {
                    Ok(at)
                } else {
                    Err(at)
                }
            }
            None => Err(at),
        }
    }
}
