//! How long the files are.
ghost use Rattle.std.specs.Prelude.{◌≡◌, ◌+◌, ◌^◌, ◌<◌, ◌≤◌};
ghost use Rattle.fits_header.specs.Cards.{whole_blocks};
ghost use Rattle.fits_tile.specs.TileFile.{data_len};

use fits_header::{BLOCK_LEN, whole_blocks};
use pyramid_model::Shape;
use survey_conf::Conf;

// How long the body of a request may be beyond the blocks of the data: the longest header that is read, and one block.
const BODY_MARGIN: usize = 37 * BLOCK_LEN;

/// How many columns and lines a tile has.
pub(crate) fn tile_width(shape: Shape) -> u32
    ensures { result ≡ 2 ^ shape.n }
{
    1 << shape.n
}

/// The length in bytes of a tile's stored numbers.
pub(crate) fn data_len(shape: Shape) -> usize
    ensures len { result ≡ data_len shape }
    ensures at_most { result < 2 ^ 24 }
{
    shape.depth.bytes() << (2 * shape.n)
}

/// The length in bytes of a tile file as `encode_into` writes it: one block for the header, and whole blocks for the data.
pub fn file_len(conf: &Conf) -> usize
    ensures { result ≡ 2880 + whole_blocks (data_len conf.now.shape) }
{
    BLOCK_LEN + whole_blocks(data_len(conf.shape()))
}

/// The length in bytes of the longest file that can be a tile, and one block more: 106,560, and whole blocks for the data.
pub fn body_room(conf: &Conf) -> usize
    ensures { result ≡ 106560 + whole_blocks (data_len conf.now.shape) }
{
    BODY_MARGIN + whole_blocks(data_len(conf.shape()))
}
