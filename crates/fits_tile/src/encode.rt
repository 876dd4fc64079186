//! Writing tile files and the files of images.
ghost use Rattle.std.specs.Prelude.{◌≡◌, ◌+◌, ◌*◌, ◌/◌, ◌≤◌, ◌∷◌, [], ◌++◌, IfOk, length, drop};
ghost use Rattle.fits_header.specs.Cards.{whole_blocks};
ghost use Rattle.fits_header.specs.FitsFile.{header_text, in_blocks, fits_file};
ghost use Rattle.fits_header.specs.WrittenCards.{end_card};
ghost use Rattle.tile_pixels.specs.Stored.{numbers_from};
ghost use Rattle.fits_tile.specs.TileFile.{data_len, tile_cards, tile_file, image_file};

use crate::cards::{image_cards, tile_cards};
use fits_header::{BLOCK_LEN, Card, whole_blocks, write_cards};
use healpix_nested::Cell;
use std::alloc::{AllocError, Global};
use survey_conf::Conf;
use tile_pixels::Tile;

/// Writes the file of a tile at the front of `out`, and says how many bytes that took: `file_len`. The rest stays.
pub fn encode_into(tile: &Tile, cell: Cell, conf: &Conf, out: &mut [u8]) -> usize
    requires depth { tile.now.depth ≡ conf.now.shape.depth }
    requires n { tile.now.n ≡ conf.now.shape.n }
    requires room { 2880 + whole_blocks (data_len conf.now.shape) ≤ length out.old }
    ensures len { result ≡ 2880 + whole_blocks (data_len conf.now.shape) }
    ensures written { out.new ≡ tile_file conf.now cell.order cell.npix tile.now.numbers ++ drop result out.old }
{
    let start = encode_cards(cell, conf, out);
    start + write_data(tile.raw(), &mut out[start..])
}

/// Writes the header of a tile file at the front of `out`: its cards, and spaces up to the end of the block. The tile's
/// stored bytes and zero bytes up to the end of their last block, behind it, make the file. It says how many bytes that
/// took: 2,880. The rest stays.
pub fn encode_cards(cell: Cell, conf: &Conf, out: &mut [u8]) -> usize
    requires { 2880 ≤ length out.old }
    ensures len { result ≡ 2880 }
    ensures written { out.new ≡ header_text (tile_cards conf.now cell.order cell.npix ++ end_card ∷ []) ++ drop result out.old }
{
    write_cards(&tile_cards(conf, cell), out)
}

/// The file of an image with the scale, the zero and the depth of the survey: `width` columns and `height` lines of the
/// stored numbers, bottom line first, that are these bytes.
///
/// # Errors
///
/// `AllocError` where there is no memory for the file.
pub fn encode_image(
    alloc: Global,
    conf: &Conf,
    width: u32,
    height: u32,
    raw: &[u8],
) -> Result<Vec<u8>, AllocError>
    requires { length raw.now ≡ width * height * (conf.now.shape.depth.bitpix / 8) }
    ensures { IfOk result (λ file. file.items ≡ image_file conf.now width height (numbers_from conf.now.shape.depth.bitpix (width * height) raw.now)) }
{
    let mut file = vec![in alloc; 0; BLOCK_LEN + whole_blocks(raw.len())]?;
    write_file(&image_cards(conf, width, height), raw, &mut file);
    Ok(file)
}

// Writes a header of one block and its data, and says how many bytes that took. The rest stays.
fn write_file(cards: &[Card], bytes: &[u8], out: &mut [u8]) -> usize
    requires some { 1 ≤ length cards.now }
    requires one_block { length cards.now ≤ 36 }
    requires room { 2880 + whole_blocks (length bytes.now) ≤ length out.old }
    ensures len { result ≡ 2880 + whole_blocks (length bytes.now) }
    ensures written { out.new ≡ fits_file cards.now bytes.now ++ drop result out.old }
{
    let start = write_cards(cards, out);
    start + write_data(bytes, &mut out[start..])
}

// Writes data and zero bytes up to the end of their last block, and says how many bytes that took. The rest stays.
fn write_data(bytes: &[u8], out: &mut [u8]) -> usize
    requires { whole_blocks (length bytes.now) ≤ length out.old }
    ensures len { result ≡ whole_blocks (length bytes.now) }
    ensures written { out.new ≡ in_blocks 0 bytes.now ++ drop result out.old }
{
    let len = whole_blocks(bytes.len());
    out[..bytes.len()].copy_from_slice(bytes);
    out[bytes.len()..len].fill(0);
    len
}
