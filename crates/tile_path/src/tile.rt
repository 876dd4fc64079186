//! The paths of tiles, which differ in their suffixes alone.
ghost use Rattle.std.specs.Prelude.{◌≡◌, ◌≢◌, ℕ, ◌+◌, ◌*◌, ◌/◌, ◌≤◌, ◌++◌, length, take, drop, codes, Some, IfSome, IsNone, MatchOption};
ghost use Rattle.tile_path.specs.Numbers.{EndsNumber, Writes};
ghost use Rattle.tile_path.specs.Spelling.{IsTile, folder_number, tile_spelling, catalogue_spelling};

use crate::number::number_after;
use crate::write::{write, write_number};
use healpix_nested::Cell;

// The greatest order of a tile.
const MAX_TILE_ORDER: u64 = 11;

// How many tiles a folder has room for.
const FOLDER_SIZE: u64 = 10_000;

// How the path of a catalogue tile ends.
const CATALOGUE_SUFFIX: &[u8] = b".tsv";

// The number in the name of the folder that tile `npix` lies in.
fn folder(npix: u64) -> u64
    ensures { result ≡ folder_number npix }
{
    npix / FOLDER_SIZE * FOLDER_SIZE
}

/// Writes the path of a tile with that suffix at the front of `out`; its length.
pub(crate) fn write_tile(cell: Cell, suffix: &[u8], out: &mut [u8]) -> usize
    requires order { cell.order ≤ 11 }
    requires room { 33 + length suffix.now ≤ length out.old }
    ensures written { Writes out.old out.new 0 result (tile_spelling cell.order cell.npix suffix.now) }
    ensures within { result ≤ 33 + length suffix.now }
{
    let order = u64::from(cell.order());
    let npix = cell.npix();
    let end = write(out, 0, b"Norder");
    let end = write_number(out, end, order);
    let end = write(out, end, b"/Dir");
    let end = write_number(out, end, folder(npix));
    let end = write(out, end, b"/Npix");
    let end = write_number(out, end, npix);
    write(out, end, suffix)
}

/// The cell of the tile whose path with that suffix is spelled so.
pub(crate) fn read_tile(text: &[u8], suffix: &[u8]) -> Option<Cell>
    requires { EndsNumber suffix.now }
    ensures { MatchOption result
        ((order npix : ℕ) → IsTile order npix → tile_spelling order npix suffix.now ≢ text.now)
        (λ cell. IsTile cell.order cell.npix × (tile_spelling cell.order cell.npix suffix.now ≡ text.now)) }
{
    let (order, rest) = number_after(text, b"Norder")?;
    let (directory, rest) = number_after(rest, b"/Dir")?;
    let (npix, rest) = number_after(rest, b"/Npix")?;
    if order <= MAX_TILE_ORDER && directory == folder(npix) && rest == suffix {
        Cell::new(order as u8, npix)
    } else {
        None
    }
}

/// Writes the path of a catalogue tile, `Norder{order}/Dir{folder}/Npix{npix}.tsv`, at the front of `out`, leaves the rest
/// as it was, and answers the length of the path, which is at most 37 bytes. The folder is that of `Path::Tile`.
pub fn tsv_into(cell: Cell, out: &mut [u8]) -> usize
    requires order { cell.order ≤ 11 }
    requires room { 37 ≤ length out.old }
    ensures length { result ≡ length (catalogue_spelling cell.order cell.npix) }
    ensures within { result ≤ 37 }
    ensures front { take result out.new ≡ catalogue_spelling cell.order cell.npix }
    ensures written { out.new ≡ catalogue_spelling cell.order cell.npix ++ drop result out.old }
{
    write_tile(cell, CATALOGUE_SUFFIX, out)
}

/// The cell of the catalogue tile with that path; `None` if and only if no cell of an order up to 11 has it.
pub fn read_tsv(text: &[u8]) -> Option<Cell>
    ensures tile { IfSome result (λ cell. IsTile cell.order cell.npix) }
    ensures spelled { IfSome result (λ cell. catalogue_spelling cell.order cell.npix ≡ text.now) }
    ensures none { IsNone result → (order npix : ℕ) → IsTile order npix → catalogue_spelling order npix ≢ text.now }
    ensures inverse { (order npix : ℕ) → IsTile order npix → catalogue_spelling order npix ≡ text.now →
        result ≡ Some (record { order = order; npix = npix }) }
{
    read_tile(text, CATALOGUE_SUFFIX)
}
