//! Why a text is no real number.
ghost use Rattle.std.specs.Prelude.{Some};
ghost use Rattle.decimal_scale.specs.Faults.{bad_real_text};

use std::error::Error;
use std::fmt;

/// Why a text is no number. Where several stand, it is the first of these.
#[derive(Clone, Copy, Debug, PartialEq, Eq, Hash)]
pub enum BadReal {
    /// The text is not a real number.
    NotANumber,
    /// More than 18 digits are left once leading and trailing zeros are dropped.
    TooLong,
    /// The exponent of ten in normal form is below -400 or above 400.
    Exponent,
}

impl fmt::Display for BadReal {
    ghost output = { λ fault. Some (bad_real_text fault) };

    fn fmt<W: fmt::Write>(&self, f: &mut fmt::Formatter<W>) -> fmt::Result {
        f.write_str(match self {
            BadReal::NotANumber => "not a real number",
            BadReal::TooLong => "more than 18 significant digits",
            BadReal::Exponent => "an exponent below -400 or above 400",
        })
    }
}

impl Error for BadReal {}
