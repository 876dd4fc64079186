//! The tiles of a catalogue, put on a shelf.
ghost use Rattle.std.specs.Prelude.{◌≡◌, ◌≤◌, ◌<◌, ℕ, length, map, true, string_bytes, option_map, slice_get, Some, IfOk, OnOk, OnErr};
ghost use Rattle.survey_link.specs.Link.{CountsFault};
ghost use Rattle.survey_link.specs.Shelf.{Finds, OthersStay as OtherPathsStay, shelf_failed};
ghost use Rattle.tile_path.specs.Spelling.{IsTile, catalogue_spelling};
ghost use Rattle.hips_catalog.specs.Catalogue.{existing_tiles};
ghost use Rattle.hips_catalog.specs.TileText.{tile_text};
ghost use Rattle.catalog_command.specs.Files.{OnFiles, OnOneShelf, IsReplaced, IsUnfinished, IsCleared, IsClearing, IsFilled, IsFilling};
ghost use Rattle.catalog_command.specs.Steps.{Clears, ClearsPath, IsTilePath, HasRight, FillsTile};

use crate::tile_name::tile_name;
use command_output::Progress;
use healpix_nested::Cell;
use hips_catalog::Catalog;
use log::Log;
use std::alloc::Global;
use std::time::Clock;
use survey_link::{LinkFault, Shelf};
use tile_path::laws::catalogue_spellings_differ;
use tile_path::read_tsv;

/// Makes the catalogue tiles on the shelf those of the catalogue, and answers how many these are. No other path is touched.
/// First each extra or stale tile is removed; then all its tiles are put, the lowest orders first. So no row is in two tiles
/// meanwhile.
///
/// # Errors
///
/// `LinkFault::Failed` where the shelf's count of faults rose, and there alone; `LinkFault::OutOfMemory`. Then some tiles may have been
/// removed or put, and one path may hold anything; all other paths stay.
pub(crate) fn put_tiles<R: AllocGlobal + Clock + Log, H: Shelf>(
    rt: &R,
    shelf: &mut H,
    catalog: &Catalog,
) -> Result<u64, LinkFault>
    ensures count { IfOk result (λ count. count ≡ length (existing_tiles catalog.now)) }
    ensures replaced { OnOk result (OnFiles (IsReplaced catalog.now) (H.files shelf.old) (H.files shelf.new)) }
    ensures refused { OnErr result (OnFiles (IsUnfinished catalog.now) (H.files shelf.old) (H.files shelf.new)) }
    ensures faults { CountsFault (shelf_failed result) (H.faults shelf.old) (H.faults shelf.new) }
{
    clear(rt.alloc(), shelf, catalog)?;
    fill(rt, shelf, catalog)
}

// Removes each extra or stale catalogue tile on the shelf.
fn clear<H: Shelf>(alloc: Global, shelf: &mut H, catalog: &Catalog) -> Result<(), LinkFault>
    ensures cleared { OnOk result (OnFiles (IsCleared catalog.now) (H.files shelf.old) (H.files shelf.new)) }
    ensures refused { OnErr result (OnFiles IsClearing (H.files shelf.old) (H.files shelf.new)) }
    ensures faults { CountsFault (shelf_failed result) (H.faults shelf.old) (H.faults shelf.new) }
{
    let paths = shelf.list(alloc)?;
    clear_paths(alloc, shelf, catalog, &paths)
}

// Removes those of these files that are extra or stale catalogue tiles.
fn clear_paths<H: Shelf>(
    alloc: Global,
    shelf: &mut H,
    catalog: &Catalog,
    paths: &[String],
) -> Result<(), LinkFault>
    ensures cleared { OnOk result (OnFiles (Clears catalog.now (map string_bytes paths.now)) (H.files shelf.old) (H.files shelf.new)) }
    ensures refused { OnErr result (OnFiles IsClearing (H.files shelf.old) (H.files shelf.new)) }
    ensures faults { CountsFault (shelf_failed result) (H.faults shelf.old) (H.faults shelf.new) }
{
    for path in paths {
        clear_path(alloc, shelf, catalog, path)?;
    }
    Ok(())
}

// Removes the file at a path if it is an extra or stale catalogue tile.
fn clear_path<H: Shelf>(
    alloc: Global,
    shelf: &mut H,
    catalog: &Catalog,
    path: &str,
) -> Result<(), LinkFault>
    ensures cleared { OnOk result (OnFiles (ClearsPath catalog.now path.now) (H.files shelf.old) (H.files shelf.new)) }
    ensures refused { OnErr result (IsTilePath path.now × OtherPathsStay path.now (H.files shelf.old) (H.files shelf.new)) }
    ensures faults { CountsFault (shelf_failed result) (H.faults shelf.old) (H.faults shelf.new) }
{
    match read_tsv(path.as_bytes()) {
        None => Ok(()),
        Some(cell) => {
            if is_right(alloc, shelf, catalog, cell, path)? {
                return Ok(());
            }
            shelf.remove(path)
        }
    }
}

// Whether the file at the path is the cell's tile.
fn is_right<H: Shelf>(
    alloc: Global,
    shelf: &mut H,
    catalog: &Catalog,
    cell: Cell,
    path: &str,
) -> Result<bool, LinkFault>
    ensures right { IfOk result (λ right. right ≡ true → OnOneShelf (HasRight catalog.now cell path.now) (H.files shelf.old)) }
    ensures kept { H.files shelf.new ≡ H.files shelf.old }
    ensures faults { CountsFault (shelf_failed result) (H.faults shelf.old) (H.faults shelf.new) }
{
    match catalog.text(cell) {
        Ok(None) => Ok(false),
        Ok(Some(wanted)) => match shelf.get(alloc, path)? {
            Some(found) => Ok(found.as_slice() == wanted.as_slice()),
            None => Ok(false),
        },
        Err(_) => Err(LinkFault::OutOfMemory),
    }
}

// Puts all tiles of the catalogue on the shelf, which has some of them and no others, and answers how many they are.
fn fill<R: AllocGlobal + Clock + Log, H: Shelf>(
    rt: &R,
    shelf: &mut H,
    catalog: &Catalog,
) -> Result<u64, LinkFault>
    ensures count { IfOk result (λ count. count ≡ length (existing_tiles catalog.now)) }
    ensures filled { OnOk result (OnFiles (IsFilled catalog.now) (H.files shelf.old) (H.files shelf.new)) }
    ensures refused { OnErr result (OnFiles (IsFilling catalog.now) (H.files shelf.old) (H.files shelf.new)) }
    ensures faults { CountsFault (shelf_failed result) (H.faults shelf.old) (H.faults shelf.new) }
{
    // For the prover: two tiles have two paths, and the catalogue's orders end at 11.
    catalogue_spellings_differ();
    let _rows = catalog.len();
    let mut progress = Progress::begin(rt, "tiles written", None);
    let mut count = 0;
    'tiles: while let Some(cell) = catalog.tile(count) {
        fill_tile(rt.alloc(), shelf, catalog, cell)?;
        progress.part_done(rt);
        count += 1;
    }
    Ok(count)
}

// Puts the tile of a cell on the shelf.
fn fill_tile<H: Shelf>(
    alloc: Global,
    shelf: &mut H,
    catalog: &Catalog,
    cell: Cell,
) -> Result<(), LinkFault>
    requires { cell.order ≤ 11 }
    ensures filled { OnOk result (OnFiles (FillsTile catalog.now cell) (H.files shelf.old) (H.files shelf.new)) }
    ensures refused { OnErr result (OtherPathsStay (catalogue_spelling cell.order cell.npix) (H.files shelf.old) (H.files shelf.new)) }
    ensures faults { CountsFault (shelf_failed result) (H.faults shelf.old) (H.faults shelf.new) }
{
    match catalog.text(cell) {
        Ok(None) => Ok(()),
        Ok(Some(text)) => match tile_name(alloc, cell) {
            Ok(name) => shelf.put(&name, text.as_slice()),
            Err(_) => Err(LinkFault::OutOfMemory),
        },
        Err(_) => Err(LinkFault::OutOfMemory),
    }
}
