//! The two real numbers of a description.
ghost use Rattle.std.specs.Prelude.{◌≡◌};
ghost use Rattle.survey_conf.specs.Numbers;
ghost use Rattle.survey_conf.specs.Description.{real_one, real_zero};

use decimal_scale::Decimal;

/// The real number that the value spells.
pub(crate) fn real(value: &[u8]) -> Option<Decimal>
    ensures { result ≡ Numbers.real value.now }
{
    Decimal::read(value).ok()
}

/// The real number that the value spells, where it is not 0.
pub(crate) fn scale(value: &[u8]) -> Option<Decimal>
    ensures { result ≡ Numbers.scale value.now }
{
    let number = real(value)?;
    if number.mantissa() != 0 {
        Some(number)
    } else {
        None
    }
}

/// The scale of a description that has none.
pub(crate) fn default_scale() -> Decimal
    ensures { result ≡ real_one }
{
    match Decimal::read(b"1") {
        Ok(scale) => scale,
        Err(_) => unreachable!(),
    }
}

/// The zero of a description that has none.
pub(crate) fn default_zero() -> Decimal
    ensures { result ≡ real_zero }
{
    match Decimal::read(b"0") {
        Ok(zero) => zero,
        Err(_) => unreachable!(),
    }
}
