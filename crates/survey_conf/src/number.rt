//! What a value stands for where its key asks for a whole number or for one of some words.
ghost use Rattle.std.specs.Prelude.{◌≡◌};
ghost use Rattle.survey_conf.specs.Numbers;

use decimal_scale::{split_sign, whole_number};
use parent_rule::Combine;

// The greatest number of digits.
const MOST_DIGITS: usize = 19;

/// The whole number that the value spells, with or without a sign and with 1 to 19 digits; `None` if and only if it spells
/// none of 64 bits.
#[tactic(auto, unfolding(crate::specs::Numbers::whole))]
pub(crate) fn whole(value: &[u8]) -> Option<i64>
    ensures { result ≡ Numbers.whole value.now }
{
    let (_, digits) = split_sign(value);
    if digits.len() <= MOST_DIGITS {
        whole_number(value)
    } else {
        None
    }
}

#[tactic(auto, unfolding(crate::specs::Numbers::natural))]
fn natural(value: &[u8]) -> Option<u64>
    ensures { result ≡ Numbers.natural value.now }
{
    u64::try_from(whole(value)?).ok()
}

/// The order of the leaf tiles.
pub(crate) fn order(value: &[u8]) -> Option<u8>
    ensures { result ≡ Numbers.order value.now }
{
    match natural(value)? {
        n @ 3..=11 => Some(n as u8),
        _ => None,
    }
}

/// The lowest order of a tile.
pub(crate) fn lowest_order(value: &[u8]) -> Option<u8>
    ensures { result ≡ Numbers.lowest_order value.now }
{
    match natural(value)? {
        n @ 0..=3 => Some(n as u8),
        _ => None,
    }
}

/// The `n` of tiles that are `2^n` wide.
pub(crate) fn width_exponent(value: &[u8]) -> Option<u8>
    ensures { result ≡ Numbers.width_exponent value.now }
{
    match natural(value)? {
        2 => Some(1),
        4 => Some(2),
        8 => Some(3),
        16 => Some(4),
        32 => Some(5),
        64 => Some(6),
        128 => Some(7),
        256 => Some(8),
        512 => Some(9),
        _ => None,
    }
}

/// The width of a stored number in bits.
pub(crate) fn bitpix(value: &[u8]) -> Option<u8>
    ensures { result ≡ Numbers.bitpix value.now }
{
    match natural(value)? {
        n @ (8 | 16 | 32 | 64) => Some(n as u8),
        _ => None,
    }
}

/// The version of a description.
pub(crate) fn version(value: &[u8]) -> Option<u8>
    ensures { result ≡ Numbers.version value.now }
{
    match natural(value)? {
        n @ 1..=2 => Some(n as u8),
        _ => None,
    }
}

/// The way to combine the numbers of four pixels.
pub(crate) fn combine(value: &[u8]) -> Option<Combine>
    ensures { result ≡ Numbers.combine value.now }
{
    if value == b"mean".as_slice() {
        return Some(Combine::Mean);
    }
    if value == b"median".as_slice() {
        return Some(Combine::Median);
    }
    None
}
