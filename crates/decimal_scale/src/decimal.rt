//! A real number in normal form: reading and writing.
ghost use Rattle.std.specs.Prelude.{◌≡◌, ℕ, ◌+◌, ◌%◌, ◌^◌, ◌<◌, ◌≤◌, pos, ◌+ℤ◌, ◌-ℤ◌, unsigned_abs, List, ◌++◌, length, take, drop, position, if◌then◌else◌};
ghost use Rattle.std.specs.Str.Parse.{starts_with_minus, without_leading_sign};
ghost use Rattle.decimal_scale.specs.Real.{IsNormal, is_exponent_letter, is_fixed_point, normal_form, signed, read_real, real_text};
ghost use Rattle.decimal_scale.specs.Scan.{AreDigitsOf};
ghost use Rattle.decimal_scale.specs.declared.fault.BadReal.TheVariants.{NotANumber};

use crate::BadReal;
use crate::digits::{Digits, MAX_DIGITS};
use crate::exponent::{EXPONENT_LIMIT, read_exponent};
use crate::whole::split_sign;
use itoa::Buffer;
use std::fmt;
use std::marker::Model;

// The least and the greatest exponent of a number.
const MIN_EXP: i128 = -400;

const MAX_EXP: i128 = 400;

/// A number `mantissa · 10^exp` in normal form: the mantissa has at most 18 digits and is not divisible by 10, and the
/// exponent is from -400 to 400; or both are 0. So two numbers are equal if and only if their parts are.
#[derive(Clone, Copy, Debug, PartialEq, Eq, Hash)]
pub struct Decimal {
    mantissa: i64,
    exp: i32,
}

impl Model for Decimal {
    ghost use Rattle.decimal_scale.specs.Real.{DecimalNumber, IsNormal};

    ghost Value = { DecimalNumber };

    ghost view = { λ d. record { mantissa = d.mantissa; exp = d.exp } };

    ghost invariant = { λ d. IsNormal (record { mantissa = d.mantissa; exp = d.exp }) };

    ghost inverse = { λ v. record { mantissa = v.mantissa; exp = v.exp } };
}

impl Decimal {
    /// The number of a decimal text (FITS 4.0, section 4.2.4): an optional sign, digits with at most one point, and
    /// optionally `E`, `D`, `e` or `d` with a whole number. Nothing may stand before or after.
    ///
    /// # Errors
    ///
    /// `NotANumber` where the text is none of these; `TooLong` where more than 18 digits are left once leading and
    /// trailing zeros are dropped; `Exponent` where some digit is left and the exponent is below -400 or above 400.
    pub fn read(text: &[u8]) -> Result<Decimal, BadReal>
        ensures { result ≡ read_real text.now }
    {
        match letter_place(text) {
            None => read_scaled(text, 0),
            Some(at) => {
                let written = read_exponent(&text[at + 1..])?;
                read_scaled(&text[..at], written)
            }
        }
    }

    /// The mantissa.
    pub fn mantissa(&self) -> i64
        ensures mantissa { result ≡ self.now.mantissa }
        ensures normal { IsNormal self.now }
    {
        self.mantissa
    }

    /// The exponent of ten.
    pub fn exp(&self) -> i32
        ensures exp { result ≡ self.now.exp }
        ensures normal { IsNormal self.now }
    {
        self.exp
    }

    /// Writes the number at the front of `out`, as in `-25.0E-5`, and says how many bytes that took. The rest stays.
    pub fn text_into(&self, out: &mut [u8]) -> usize
        requires { 26 ≤ length out.old }
        ensures len { result ≡ length (real_text self.now) }
        ensures short { result ≤ 26 }
        ensures written { out.new ≡ real_text self.now ++ drop result out.old }
    {
        let mut buffer = Buffer::new();
        let len = write_at(out, 0, buffer.format(self.mantissa).as_bytes());
        let len = write_at(out, len, b".0E");
        write_at(out, len, buffer.format(self.exp).as_bytes())
    }
}

impl fmt::Display for Decimal {
    ghost use Rattle.std.specs.Prelude.{Some};
    ghost use Rattle.decimal_scale.specs.Real.{real_text};

    ghost output = { λ number. Some (real_text number) };

    fn fmt<W: fmt::Write>(&self, f: &mut fmt::Formatter<W>) -> fmt::Result {
        let mantissa = self.mantissa;
        let exp = self.exp;
        write!(f, "{mantissa}.0E{exp}")
    }
}

// Where the first exponent letter stands.
fn letter_place(text: &[u8]) -> Option<usize>
    ensures { result ≡ position is_exponent_letter text.now }
{
    text.iter().position(|byte| is_exponent_letter(*byte))
}

// Whether an exponent follows this byte.
fn is_exponent_letter(byte: u8) -> bool
    ensures { result ≡ is_exponent_letter byte }
{
    matches!(byte, b'E' | b'D' | b'e' | b'd')
}

// The number of the text before the exponent letter, times ten to the exponent written after it.
fn read_scaled(text: &[u8], written: i128) -> Result<Decimal, BadReal>
    requires { unsigned_abs written ≤ EXPONENT_LIMIT }
    ensures { result ≡ (if is_fixed_point (without_leading_sign text.now)
        then normal_form (starts_with_minus text.now) (without_leading_sign text.now) written else Err NotANumber) }
{
    let (is_negative, number) = split_sign(text);
    let digits = Digits::read(number)?;
    scale(is_negative, digits, written)
}

// The normal form of these digits times ten to the written exponent.
fn scale(is_negative: bool, digits: Digits, written: i128) -> Result<Decimal, BadReal>
    requires written { unsigned_abs written ≤ EXPONENT_LIMIT }
    requires small { digits.significant ≤ 18 → digits.significand < 10 ^ 18 }
    requires last { 0 < digits.significant → digits.significant ≤ 18 → 0 < digits.significand % 10 }
    ensures { (number : List ℕ) → AreDigitsOf number digits → result ≡ normal_form is_negative number written }
{
    if digits.significant > MAX_DIGITS {
        return Err(BadReal::TooLong);
    }
    if digits.significant == 0 {
        return Ok(Decimal {
            mantissa: 0,
            exp: 0,
        });
    }
    let exp = exponent(digits, written);
    if exp < MIN_EXP || exp > MAX_EXP {
        return Err(BadReal::Exponent);
    }
    Ok(Decimal {
        mantissa: signed(is_negative, digits.significand),
        exp: exp as i32,
    })
}

// The exponent of the significant digits.
fn exponent(digits: Digits, written: i128) -> i128
    requires { unsigned_abs written ≤ EXPONENT_LIMIT }
    ensures { result ≡ written -ℤ pos digits.after_point +ℤ pos digits.trailing_zeros }
{
    written - digits.after_point as i128 + digits.trailing_zeros as i128
}

// The number of that size on one side of 0.
fn signed(is_negative: bool, magnitude: u64) -> i64
    requires { magnitude < 10 ^ 18 }
    ensures { result ≡ signed is_negative magnitude }
{
    let magnitude = magnitude as i64;
    if is_negative { -magnitude } else { magnitude }
}

// Writes the bytes at a place, and says where they end.
fn write_at(out: &mut [u8], at: usize, bytes: &[u8]) -> usize
    requires { at + length bytes.now ≤ length out.old }
    ensures end { result ≡ at + length bytes.now }
    ensures written { out.new ≡ take at out.old ++ bytes.now ++ drop result out.old }
{
    let end = at + bytes.len();
    out[at..end].copy_from_slice(bytes);
    end
}
