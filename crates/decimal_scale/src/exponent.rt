//! The exponent of a real number.
ghost use Rattle.std.specs.Prelude.{◌≡◌, ℕ, MatchResult};
ghost use Rattle.std.specs.Str.Parse.{without_leading_sign};
ghost use Rattle.decimal_scale.specs.Real.{is_whole};
ghost use Rattle.decimal_scale.specs.Scan.{IsCapped, IsCappedExponent, IsRefused};

use crate::BadReal;
use crate::whole::split_sign;

/// The written exponent is cut off here, on both sides of 0. No slice has so many bytes, so that the digits can't lead such
/// an exponent back.
pub(crate) const EXPONENT_LIMIT: u128 = 1_000_000_000_000_000_000_000_000_000_000;

/// The number of an optional sign and one or more digits, cut off at the limit.
///
/// # Errors
///
/// `NotANumber` for any other text.
pub(crate) fn read_exponent(text: &[u8]) -> Result<i128, BadReal>
    ensures { MatchResult result (λ written. IsCappedExponent EXPONENT_LIMIT text.now written)
        (λ fault. IsRefused (is_whole (without_leading_sign text.now)) fault) }
{
    let (is_negative, digits) = split_sign(text);
    let magnitude = read_capped(digits)? as i128;
    if is_negative {
        Ok(-magnitude)
    } else {
        Ok(magnitude)
    }
}

// The number of one or more digits, cut off at the limit.
fn read_capped(digits: &[u8]) -> Result<u128, BadReal>
    ensures { MatchResult result (λ n. IsCapped EXPONENT_LIMIT digits.now n) (λ fault. IsRefused (is_whole digits.now) fault) }
{
    if digits.is_empty() {
        return Err(BadReal::NotANumber);
    }
    let mut number: u128 = 0;
    for byte in digits {
        if !byte.is_ascii_digit() {
            return Err(BadReal::NotANumber);
        }
        number = (number * 10 + u128::from(*byte - b'0')).min(EXPONENT_LIMIT);
    }
    Ok(number)
}
