//! What the values of the known keys stand for; a key that is not there has its default.
ghost use Rattle.std.specs.Prelude.{◌≡◌, pos};
ghost use Rattle.parent_rule.specs.declared.combine.Combine.TheVariants.{Mean};
ghost use Rattle.survey_conf.specs.Numbers;
ghost use Rattle.survey_conf.specs.Entries.{read_as};
ghost use Rattle.survey_conf.specs.Description.{real_one, real_zero};
ghost use Rattle.survey_conf.specs.EntriesView.{entries_view};
ghost use Rattle.survey_conf.specs.declared.key.Key.TheVariants.{HipsOrder, HipsOrderMin, HipsTileWidth, SurveyBitpix, SurveyBlank, SurveyBscale, SurveyBzero, SurveyRule, SurveyVersion};

use crate::entries::{Entries, value_of};
use crate::key::Key;
use crate::number;
use crate::real::{self, default_scale, default_zero};
use decimal_scale::Decimal;
use parent_rule::Combine;

/// The order of the leaf tiles.
pub(crate) fn order(entries: &Entries<'_>) -> u8
    ensures { result ≡ read_as Numbers.order 3 (entries_view entries.now.entries) HipsOrder }
{
    value_of(entries, Key::HipsOrder)
        .and_then(number::order)
        .unwrap_or(3)
}

/// The lowest order of a tile, 3 where it is not said.
pub(crate) fn lowest_order(entries: &Entries<'_>) -> u8
    ensures { result ≡ read_as Numbers.lowest_order 3 (entries_view entries.now.entries) HipsOrderMin }
{
    value_of(entries, Key::HipsOrderMin)
        .and_then(number::lowest_order)
        .unwrap_or(3)
}

/// The `n` of tiles that are `2^n` wide, 9 where no width is said.
pub(crate) fn width_exponent(entries: &Entries<'_>) -> u8
    ensures { result ≡ read_as Numbers.width_exponent 9 (entries_view entries.now.entries) HipsTileWidth }
{
    value_of(entries, Key::HipsTileWidth)
        .and_then(number::width_exponent)
        .unwrap_or(9)
}

/// The width of a stored number in bits.
pub(crate) fn bitpix(entries: &Entries<'_>) -> u8
    ensures { result ≡ read_as Numbers.bitpix 8 (entries_view entries.now.entries) SurveyBitpix }
{
    value_of(entries, Key::SurveyBitpix)
        .and_then(number::bitpix)
        .unwrap_or(8)
}

/// The number of blank pixels.
pub(crate) fn blank(entries: &Entries<'_>) -> i64
    ensures { result ≡ read_as Numbers.whole (pos 0) (entries_view entries.now.entries) SurveyBlank }
{
    value_of(entries, Key::SurveyBlank)
        .and_then(number::whole)
        .unwrap_or(0)
}

/// The way to combine the numbers of four pixels, the mean where none is said.
pub(crate) fn combine(entries: &Entries<'_>) -> Combine
    ensures { result ≡ read_as Numbers.combine Mean (entries_view entries.now.entries) SurveyRule }
{
    value_of(entries, Key::SurveyRule)
        .and_then(number::combine)
        .unwrap_or(Combine::Mean)
}

/// The version of the description, 1 where none is said.
pub(crate) fn version(entries: &Entries<'_>) -> u8
    ensures { result ≡ read_as Numbers.version 1 (entries_view entries.now.entries) SurveyVersion }
{
    value_of(entries, Key::SurveyVersion)
        .and_then(number::version)
        .unwrap_or(1)
}

/// What a stored number is multiplied by, 1 where it is not said.
pub(crate) fn scale(entries: &Entries<'_>) -> Decimal
    ensures { result ≡ read_as Numbers.scale real_one (entries_view entries.now.entries) SurveyBscale }
{
    value_of(entries, Key::SurveyBscale)
        .and_then(real::scale)
        .unwrap_or(default_scale())
}

/// What is added to a stored number, 0 where it is not said.
pub(crate) fn zero(entries: &Entries<'_>) -> Decimal
    ensures { result ≡ read_as Numbers.real real_zero (entries_view entries.now.entries) SurveyBzero }
{
    value_of(entries, Key::SurveyBzero)
        .and_then(real::real)
        .unwrap_or(default_zero())
}
