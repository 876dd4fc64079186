//! Whether the values of a header are those of a survey's tiles.
ghost use Rattle.std.specs.Prelude.{◌≡◌, ℤ, pos, ◌&&◌, false, unwrap_or};
ghost use Rattle.decimal_scale.specs.Real.{DecimalNumber};
ghost use Rattle.parent_rule.specs.Depth.{PixelDepth};
ghost use Rattle.fits_tile.specs.Reading.{is_other, is_same, header_fault, blank_fault};

use crate::fault::TileFault;
use crate::size::tile_width;
use decimal_scale::Decimal;
use fits_header::Header;
use parent_rule::Depth;
use survey_conf::Conf;

// The number of axes of an image.
const AXES: i64 = 2;

/// The first fault of a header's values: of SIMPLE, BITPIX, NAXIS, NAXIS1, NAXIS2, BSCALE, BZERO and BLANK, in this order.
#[tactic(auto, unfolding(crate::specs::Reading::header_fault))]
pub(crate) fn header_fault(header: &Header, conf: &Conf) -> Option<TileFault>
    ensures { result ≡ header_fault conf.now header.now }
{
    let shape = conf.shape();
    let width = i64::from(tile_width(shape));
    if !is_simple(header) {
        return Some(TileFault::NotSimple);
    }
    if is_other(i64::from(shape.depth.bitpix()), header.bitpix) {
        return Some(TileFault::Bitpix {
            found: header.bitpix,
        });
    }
    if is_other(AXES, header.naxis) {
        return Some(TileFault::Naxis {
            found: header.naxis,
        });
    }
    if is_other(width, header.naxis1) {
        return Some(TileFault::Width {
            axis: 1,
            found: header.naxis1,
        });
    }
    if is_other(width, header.naxis2) {
        return Some(TileFault::Width {
            axis: 2,
            found: header.naxis2,
        });
    }
    if !is_same(header.bscale, 1, conf.bscale()) {
        return Some(TileFault::Scale);
    }
    if !is_same(header.bzero, 0, conf.bzero()) {
        return Some(TileFault::Zero);
    }
    blank_fault(header.blank, shape.depth)
}

// Whether card 1 says that the file conforms to the standard.
fn is_simple(header: &Header) -> bool
    ensures { result ≡ (header.now.first_simple && unwrap_or header.now.simple false) }
{
    header.first_simple && header.simple.unwrap_or(false)
}

// Whether a keyword has another value than the one wanted, or none.
fn is_other(wanted: i64, found: Option<i64>) -> bool
    ensures { result ≡ is_other wanted found }
{
    found != Some(wanted)
}

// Whether a keyword has the number wanted. Where it is absent it has a whole number of one digit.
fn is_same(found: Option<Decimal>, absent: i64, wanted: &Decimal) -> bool
    ensures { result ≡ is_same (unwrap_or found (record { mantissa = absent; exp = pos 0 })) wanted.now }
{
    match found {
        Some(found) => found.mantissa() == wanted.mantissa() && found.exp() == wanted.exp(),
        None => wanted.mantissa() == absent && wanted.exp() == 0,
    }
}

fn blank_fault(found: Option<i64>, depth: Depth) -> Option<TileFault>
    ensures { result ≡ blank_fault depth found }
{
    match found {
        Some(found) if found != depth.blank() => Some(TileFault::Blank { found }),
        _ => None,
    }
}
