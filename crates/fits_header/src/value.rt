//! The value text of a card, and what it stands for.
ghost use Rattle.std.specs.Prelude.{◌≡◌, ◌≤◌, not, length};
ghost use Rattle.std.specs.List.{take_while};
ghost use Rattle.std.specs.Option.{option_copied};
ghost use Rattle.fits_header.specs.Values.{is_space, ends_value, without_leading_spaces, value_field, may_follow_value, field_text, value_text, logical, real};

use decimal_scale::Decimal;

// The columns before the value.
const VALUE_START: usize = 10;

/// The value text of a card; `None` if and only if what follows it is neither spaces nor a comment.
#[tactic(auto, unfolding(crate::specs::Values::value_text))]
pub(crate) fn value_text(card: &[u8]) -> Option<&[u8]>
    requires { 10 ≤ length card.now }
    ensures { option_copied result ≡ value_text card.now }
{
    let field = value_field(card);
    let text = field_text(field);
    if may_follow_value(&field[text.len()..]) {
        Some(text)
    } else {
        None
    }
}

// What stands in columns 11 to 80, from the first byte on that is no space.
#[tactic(auto, unfolding(crate::specs::Values::value_field))]
fn value_field(card: &[u8]) -> &[u8]
    requires { 10 ≤ length card.now }
    ensures { result.now ≡ value_field card.now }
{
    without_leading_spaces(&card[VALUE_START..])
}

// The text before the first space or `/`.
#[tactic(auto, unfolding(crate::specs::Values::field_text))]
fn field_text(field: &[u8]) -> &[u8]
    ensures text { result.now ≡ field_text field.now }
    ensures short { length result.now ≤ length field.now }
{
    &field[..text_len(field)]
}

// How many bytes stand before the first space or `/`.
fn text_len(field: &[u8]) -> usize
    ensures { result ≡ length (take_while (λ byte. not (ends_value byte)) field.now) }
{
    field.iter().take_while(|byte| !ends_value(**byte)).count()
}

fn ends_value(byte: u8) -> bool
    ensures { result ≡ ends_value byte }
{
    matches!(byte, b' ' | b'/')
}

// Whether the rest is spaces, or spaces and then `/` with any comment.
fn may_follow_value(rest: &[u8]) -> bool
    ensures { result ≡ may_follow_value rest.now }
{
    match without_leading_spaces(rest) {
        [] => true,
        [first, ..] => *first == b'/',
    }
}

fn without_leading_spaces(text: &[u8]) -> &[u8]
    ensures { result.now ≡ without_leading_spaces text.now }
{
    &text[leading_spaces(text)..]
}

// How many spaces stand before any other byte.
fn leading_spaces(text: &[u8]) -> usize
    ensures { result ≡ length (take_while is_space text.now) }
{
    text.iter().take_while(|byte| **byte == b' ').count()
}

/// The logical value that the text is; `None` if and only if it is neither `T` nor `F`.
#[tactic(auto, unfolding(crate::specs::Values::logical))]
pub(crate) fn logical(text: &[u8]) -> Option<bool>
    ensures { result ≡ logical text.now }
{
    if text == b"T".as_slice() {
        return Some(true);
    }
    if text == b"F".as_slice() {
        return Some(false);
    }
    None
}

/// The real number that the text spells; `None` if and only if `Decimal::read` refuses it.
#[tactic(auto, unfolding(crate::specs::Values::real))]
pub(crate) fn real(text: &[u8]) -> Option<Decimal>
    ensures { result ≡ real text.now }
{
    Decimal::read(text).ok()
}
