//! Spaces and tabs at the ends of what is written.
ghost use Rattle.std.specs.Prelude.{◌≡◌, reverse, length};
ghost use Rattle.std.specs.List.{take_while};
ghost use Rattle.survey_conf.specs.Lines;

/// The bytes without the spaces and tabs at both ends.
#[tactic(auto, unfolding(crate::specs::Lines::trimmed))]
pub(crate) fn trimmed(bytes: &[u8]) -> &[u8]
    ensures { result.now ≡ Lines.trimmed bytes.now }
{
    without_trailing_blanks(without_leading_blanks(bytes))
}

fn without_leading_blanks(bytes: &[u8]) -> &[u8]
    ensures { result.now ≡ Lines.without_leading_blanks bytes.now }
{
    &bytes[leading_blanks(bytes)..]
}

fn without_trailing_blanks(bytes: &[u8]) -> &[u8]
    ensures { result.now ≡ Lines.without_trailing_blanks bytes.now }
{
    &bytes[..bytes.len() - trailing_blanks(bytes)]
}

// How many spaces and tabs stand before any other byte.
fn leading_blanks(bytes: &[u8]) -> usize
    ensures { result ≡ length (take_while Lines.is_blank bytes.now) }
{
    bytes.iter().take_while(|byte| is_blank(**byte)).count()
}

// How many spaces and tabs stand after any other byte.
fn trailing_blanks(bytes: &[u8]) -> usize
    ensures { result ≡ length (take_while Lines.is_blank (reverse bytes.now)) }
{
    bytes
        .iter()
        .rev()
        .take_while(|byte| is_blank(**byte))
        .count()
}

fn is_blank(byte: u8) -> bool
    ensures { result ≡ Lines.is_blank byte }
{
    byte == b' ' || byte == b'\t'
}
