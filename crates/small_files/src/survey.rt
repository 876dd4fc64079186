//! The texts of the survey.
use crate::cards::header;
use std::alloc::{AllocError, Global};

/// The survey's names, the date of its release and its status, and these lines behind them.
#[macro_export]
macro_rules! description_with {
    ($($lines:literal),*) => {
        concat!(
            "creator_did = ivo://example/P/one
obs_title = Survey one
hips_release_date = 2024-05-01T00:00Z
hips_status = public master clonable
",
            $($lines),*
        )
    };
}

/// Its description, and these lines behind it.
#[macro_export]
macro_rules! survey_with {
    ($lines:literal) => {
        $crate::description_with!(
            "hips_order = 4
hips_tile_width = 2
survey_bitpix = 16
survey_blank = -32768
",
            $lines
        )
    };
}

/// Its description.
pub const SURVEY: &str = survey_with!("");

/// Its properties, but for those of its rule and its leaves, and these lines behind them.
#[macro_export]
macro_rules! properties_with {
    ($lines:literal) => {
        concat!(
            "creator_did = ivo://example/P/one
obs_title = Survey one
dataproduct_type = image
hips_version = 1.4
hips_release_date = 2024-05-01T00:00Z
hips_status = public master clonable
hips_frame = equatorial
hips_order = 4
hips_order_min = 3
hips_tile_width = 2
hips_tile_format = fits
survey_bitpix = 16
survey_bscale = 1.0E0
survey_bzero = 0.0E0
survey_blank = -32768
",
            $lines
        )
    };
}

/// Its properties, up to the number of its leaves.
pub const PROPERTIES: &str = properties_with!("survey_leaves = ");

/// The cards of each of its tiles, one a line, but for those of the tile's cell.
const TILE_CARDS: &str = "SIMPLE  =                    T
BITPIX  =                   16
NAXIS   =                    2
NAXIS1  =                    2
NAXIS2  =                    2
BSCALE  =                1.0E0
BZERO   =                0.0E0
BLANK   =               -32768
";

/// The cards of tile 0 of order 4, one a line.
pub const TILE_HEADER: &str = "SIMPLE  =                    T
BITPIX  =                   16
NAXIS   =                    2
NAXIS1  =                    2
NAXIS2  =                    2
BSCALE  =                1.0E0
BZERO   =                0.0E0
BLANK   =               -32768
ORDER   =                    4
NPIX    =                    0
END";

/// The header of the tile with this order and number.
///
/// # Errors
///
/// `AllocError` where there is no memory for it.
pub fn cell_header(alloc: Global, order: &str, npix: &str) -> Result<Vec<u8>, AllocError> {
    let cards = format!(in alloc; "{TILE_CARDS}ORDER   = {order:>20}\nNPIX    = {npix:>20}\nEND")?;
    header(alloc, cards.as_str())
}

/// The cards of its mosaic, one a line.
pub const MOSAIC_HEADER: &str = "SIMPLE  =                    T
BITPIX  =                   16
NAXIS   =                    2
NAXIS1  =                   54
NAXIS2  =                   58
BSCALE  =                1.0E0
BZERO   =                0.0E0
BLANK   =               -32768
END";

/// The cards of the first header of a coverage, one a line.
pub const COVERAGE_HEADER: &str = "SIMPLE  =                    T
BITPIX  =                    8
NAXIS   =                    0
EXTEND  =                    T
END";

/// The cards of the table of a coverage before the one that says how many rows there are, one a line.
pub const COVERAGE_TABLE: &str = "XTENSION= 'BINTABLE'
BITPIX  =                    8
NAXIS   =                    2
NAXIS1  =                    8
";

/// The cards behind that one, but for those of the order and of the end.
pub const COVERAGE_COLUMN: &str = "PCOUNT  =                    0
GCOUNT  =                    1
TFIELDS =                    1
TTYPE1  = 'UNIQ    '
TFORM1  = '1K      '
PIXTYPE = 'HEALPIX '
ORDERING= 'NUNIQ   '
COORDSYS= 'C       '
";
