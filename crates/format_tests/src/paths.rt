//! Worked examples, as tables.
ghost use Rattle.std.specs.Prelude.{IsTrue, ◌↔◌};
ghost use Rattle.tile_path.specs.Spelling.{HasTileOrder};

use healpix_nested::Cell;
use std::alloc::{AllocError, Global};
use std::test::Fail;
use tile_path::{Path, read_tsv, tsv_into};

const BLANK: [u8; 40] = [b'!'; 40];

fn has_tile_order(path: Path) -> bool
    ensures { IsTrue result ↔ HasTileOrder path }
{
    match path {
        Path::Tile(cell) => cell.order() <= 11,
        _ => true,
    }
}

// Whether the path is written so, at the front of a buffer whose rest stays, and is read again.
fn is_path(path: Path, text: &[u8]) -> bool {
    if !has_tile_order(path) {
        return false;
    }
    let mut out = BLANK;
    let len = path.write_into(&mut out);
    &out[..len] == text && out[len..] == BLANK[len..] && Path::read(text) == Some(path)
}

// Whether the catalogue tile is written so, at the front of a buffer whose rest stays, and is read again.
fn is_catalogue_tile(cell: Cell, text: &[u8]) -> bool {
    if cell.order() > 11 {
        return false;
    }
    let mut out = BLANK;
    let len = tsv_into(cell, &mut out);
    &out[..len] == text && out[len..] == BLANK[len..] && read_tsv(text) == Some(cell)
}

// Whether the path is written and shown so, and is read again.
fn is_spelled(alloc: Global, path: Path, text: &str) -> Result<bool, AllocError> {
    let shown = path.to_string(alloc)?;
    Ok(is_path(path, text.as_bytes()) && shown.as_str() == text)
}

#[test]
fn files_have_spellings(rt: HostRuntime) -> Result<(), Fail> {
    let alloc = rt.alloc();
    assert!(rt; is_spelled(alloc, Path::Properties, "properties")?);
    assert!(rt; is_spelled(alloc, Path::Moc, "Moc.fits")?);
    assert!(rt; is_spelled(alloc, Path::Allsky, "Norder3/Allsky.fits")?);
    Ok(())
}

// The order and the number of a cell, and the path of its tiles without their suffix.
const TILES: &str = "0 0 Norder0/Dir0/Npix0
0 11 Norder0/Dir0/Npix11
3 0 Norder3/Dir0/Npix0
3 767 Norder3/Dir0/Npix767
5 9999 Norder5/Dir0/Npix9999
5 10000 Norder5/Dir10000/Npix10000
5 12287 Norder5/Dir10000/Npix12287
7 10302 Norder7/Dir10000/Npix10302
10 12582911 Norder10/Dir12580000/Npix12582911
11 50331647 Norder11/Dir50330000/Npix50331647";

#[test]
fn tiles_have_spellings(rt: HostRuntime) -> Result<(), Fail> {
    for row in TILES.lines() {
        assert!(rt; is_tile(rt.alloc(), row)?, "{row}");
    }
    Ok(())
}

// The field of a row at a place.
fn field(row: &str, at: usize) -> &str {
    row.split(' ').nth(at).unwrap_or("")
}

// The cell of a row.
fn cell_of(row: &str) -> Option<Cell> {
    let order = field(row, 0).parse::<u8>().ok()?;
    let npix = field(row, 1).parse::<u64>().ok()?;
    Cell::new(order, npix)
}

// A text, and what follows it.
fn joined(alloc: Global, text: &str, suffix: &str) -> Result<String, AllocError> {
    let mut all = String::from_str(alloc, text)?;
    all.push_str(suffix)?;
    Ok(all)
}

// Whether the tile and the catalogue tile of a row's cell have its path, but for their suffixes.
fn is_tile(alloc: Global, row: &str) -> Result<bool, AllocError> {
    match cell_of(row) {
        Some(cell) => are_tiles(alloc, cell, field(row, 2)),
        None => Ok(false),
    }
}

fn are_tiles(alloc: Global, cell: Cell, text: &str) -> Result<bool, AllocError> {
    Ok(
        is_catalogue_tile(cell, joined(alloc, text, ".tsv")?.as_bytes())
            && is_spelled(alloc, Path::Tile(cell), &joined(alloc, text, ".fits")?)?,
    )
}

// Neither a file nor a catalogue tile is spelled so.
const OTHERS: &str = "
/properties
properties/
Properties
Moc.fits/
Moc.tsv
Norder4/Allsky.fits
Norder3/Allsky
Norder
Norder3/Dir0/
/Norder3/Dir0/Npix0.fits
norder3/Dir0/Npix0.fits
Norder3Dir0/Npix0.fits
Norder3/Dir0Npix0.fits
Norder/Dir0/Npix0.fits
Norder3/Dir/Npix0.fits
Norder3/Dir0/Npix.fits
Norder03/Dir0/Npix0.fits
Norder3/Dir00/Npix0.fits
Norder3/Dir0/Npix007.fits
Norder3/Dir0/Npix+7.fits
Norder3/Dir0/Npix-0.fits
Norder3/Dir0/Npix0
Norder3/Dir0/Npix0.FITS
Norder3/Dir0/Npix0.fits 
Norder3/Dir0/Npix768.fits
Norder7/Dir0/Npix10302.fits
Norder11/Dir50330000/Npix50331648.fits
Norder12/Dir0/Npix0.fits
Norder11/Dir0/Npix18446744073709551616.fits
Norder12/Dir0/Npix0.tsv
Norder7/Dir0/Npix10302.tsv
Norder3/Dir0/Npix0.tsv.fits";

#[test]
fn other_texts_are_no_paths(rt: HostRuntime) {
    for text in OTHERS.lines() {
        assert!(rt;
            Path::read(text.as_bytes()).is_none() && read_tsv(text.as_bytes()).is_none(),
            "at {text}"
        );
    }
    assert!(rt; Path::read(b"Norder3/Dir0/Npix0.tsv").is_none());
    assert!(rt;
        read_tsv(b"Norder3/Dir0/Npix0.fits").is_none() && read_tsv(b"properties").is_none()
    );
}
