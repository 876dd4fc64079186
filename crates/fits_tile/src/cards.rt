//! The cards of the files that are written.
ghost use Rattle.std.specs.Prelude.{◌≡◌, ◌∷◌, [], ◌++◌, pos, IsTrue};
ghost use Rattle.fits_header.specs.WrittenCards.{end_card};
ghost use Rattle.parent_rule.specs.Depth.{is_bitpix};
ghost use Rattle.fits_tile.specs.TileFile.{image_cards, tile_cards};

use crate::size::tile_width;
use fits_header::Card;
use healpix_nested::Cell;
use survey_conf::Conf;

/// The cards of a tile file.
#[tactic(auto, unfolding(crate::specs::TileFile::image_cards, crate::specs::TileFile::cell_cards))]
pub(crate) fn tile_cards(conf: &Conf, cell: Cell) -> [Card; 11]
    ensures { result ≡ tile_cards conf.now cell.order cell.npix ++ end_card ∷ [] }
{
    let width = tile_width(conf.shape());
    let [simple, bitpix, naxis, naxis1, naxis2, bscale, bzero, blank] = value_cards(
        conf, width, width,
    );
    [
        simple,
        bitpix,
        naxis,
        naxis1,
        naxis2,
        bscale,
        bzero,
        blank,
        Card::integer(b"ORDER", i64::from(cell.order())),
        Card::integer(b"NPIX", number_of(cell)),
        Card::end(),
    ]
}

// The number of a cell within its order, which is below 2^44.
fn number_of(cell: Cell) -> i64
    ensures { result ≡ pos cell.npix }
{
    cell.npix() as i64
}

/// The cards of an image file.
#[tactic(auto, unfolding(crate::specs::TileFile::image_cards))]
pub(crate) fn image_cards(conf: &Conf, width: u32, height: u32) -> [Card; 9]
    ensures cards { result ≡ image_cards conf.now width height ++ end_card ∷ [] }
    ensures bitpix { IsTrue (is_bitpix conf.now.shape.depth.bitpix) }
{
    let [simple, bitpix, naxis, naxis1, naxis2, bscale, bzero, blank] = value_cards(
        conf, width, height,
    );
    [
        simple,
        bitpix,
        naxis,
        naxis1,
        naxis2,
        bscale,
        bzero,
        blank,
        Card::end(),
    ]
}

// The cards of what the numbers are, and of how many columns and lines of them there are.
#[tactic(auto, unfolding(crate::specs::TileFile::image_cards))]
fn value_cards(conf: &Conf, width: u32, height: u32) -> [Card; 8]
    ensures cards { result ≡ image_cards conf.now width height }
    ensures bitpix { IsTrue (is_bitpix conf.now.shape.depth.bitpix) }
{
    let depth = conf.shape().depth;
    [
        Card::logical(b"SIMPLE", true),
        Card::integer(b"BITPIX", i64::from(depth.bitpix())),
        Card::integer(b"NAXIS", 2),
        Card::integer(b"NAXIS1", i64::from(width)),
        Card::integer(b"NAXIS2", i64::from(height)),
        Card::real(b"BSCALE", conf.bscale()),
        Card::real(b"BZERO", conf.bzero()),
        Card::integer(b"BLANK", depth.blank()),
    ]
}
